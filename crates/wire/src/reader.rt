// The reader of a member file: it stands over the caller's bytes and knows its place.
ghost use Rattle.std.specs.Prelude.{◌≤◌, length};

pub mod walk;

#[derive(Clone, Copy)]
pub struct Reader<'a> {
    bytes: &'a [u8],
    at: usize,
    ghost within: { at ≤ length bytes.now },
}
