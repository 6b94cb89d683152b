// A pen over a part of a buffer: it writes numbers one behind another, highest byte first.
ghost use Rattle.std.specs.Prelude.{◌+◌, ◌≤◌, length};
ghost use Rattle.pen.specs.Puts.{Puts};

use wire::fields::BigEndian;

#[derive(Drop)]
pub struct Pen<'b> {
    pub out: &'b mut [u8],
    pub at: usize,
}

impl<'b> Pen<'b> {
    // Writes a number.
    pub fn put<N: BigEndian>(&mut self, x: N)
        requires { self.old.at + N.WIDTH ≤ length self.old.out.now }
        ensures { Puts self.old self.new (N.bytes x) }
    {
        let at = self.at;
        x.write(&mut self.out[at..]);
        self.at = at + N::WIDTH;
    }
}
