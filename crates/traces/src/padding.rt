// A plain padded to whole blocks.
ghost use Rattle.std.specs.List.{list_all};
ghost use Rattle.std.specs.Prelude.{◌≡◌, ◌==◌, ◌+◌, ◌<◌, ◌≤◌, length};
ghost use Rattle.std.specs.Option.{option_map};
ghost use Rattle.traces.specs.Padding.{padded, padding, unpadded};

// How many bytes are added to so many, one to eight.
pub(crate) fn padding(plain: usize) -> usize
    ensures value { result ≡ padding plain }
    ensures some { 0 < result }
    ensures few { result ≤ 8 }
{
    8 - plain % 8
}

// Writes a plain and its padding over the whole of some bytes.
pub(crate) fn pad(plain: &[u8], run: &mut [u8])
    requires { length run.old ≡ length plain.now + padding (length plain.now) }
    ensures { run.new ≡ padded plain.now }
{
    let (front, back) = run.split_at_mut(plain.len());
    front.copy_from_slice(plain);
    back.fill(padding(plain.len()) as u8);
}

// Whether each of some bytes has this value.
fn all_are(value: u8, bytes: &[u8]) -> bool
    ensures { result ≡ list_all (λ b. b == value) bytes.now }
{
    bytes.iter().all(|b| *b == value)
}

// The plain of a run, where the rest is padding.
pub(crate) fn unpad(run: &[u8]) -> Option<&[u8]>
    requires { 8 ≤ length run.now }
    ensures { option_map (λ plain. plain.now) result ≡ unpadded run.now }
{
    let count = *run.last()?;
    let number = usize::from(count);
    if !(1..=8).contains(&number) {
        return None;
    }
    let (plain, padding) = run.split_at(run.len() - number);
    if all_are(count, padding) {
        Some(plain)
    } else {
        None
    }
}
