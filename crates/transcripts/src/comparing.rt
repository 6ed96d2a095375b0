// Whether two requests are the same.
ghost use Rattle.std.specs.Prelude.{◌≡◌, ◌↔◌, IsTrue};
ghost use Rattle.chaining.specs.Sessions.{asked};

use chaining::Request;

// The same request with the same bytes. The comparison is derived, and this call carries what it decides.
pub fn same(left: &Request<Vec<u8>>, right: &Request<Vec<u8>>) -> bool
    ensures { IsTrue result ↔ (asked left.now ≡ asked right.now) }
{
    left == right
}
