// A sheet that the caller lends, and how far it is written.
// Nothing here knows what the bytes say.
ghost use Rattle.std.specs.Prelude.{◌≡◌, ◌≤◌, ◌↔◌, IsTrue, length};

#[derive(Drop)]
pub struct Sheet<'a> {
    out: &'a mut [u8],
    end: usize,
    ghost within: { end ≤ length out.now },
}

impl<'a> Sheet<'a> {
    ghost use Rattle.printer.specs.Code.Printed.{Adds};

    pub fn new(out: &'a mut [u8]) -> Sheet<'a>
        ensures same { result.out.ghost_name ≡ out.entry.ghost_name }
        ensures bytes { result.out.now ≡ out.old }
        ensures end { result.end ≡ 0 }
    {
        Sheet { out, end: 0 }
    }

    // Goes on behind the first `end` bytes.
    pub fn behind(out: &'a mut [u8], end: usize) -> Sheet<'a>
        requires { end ≤ length out.old }
        ensures same { result.out.ghost_name ≡ out.entry.ghost_name }
        ensures bytes { result.out.now ≡ out.old }
        ensures end { result.end ≡ end }
    {
        Sheet { out, end }
    }

    pub fn end(&self) -> usize
        ensures { result ≡ self.now.end }
    {
        self.end
    }

    pub fn is_full(&self) -> bool
        ensures { IsTrue result ↔ (self.now.end ≡ length self.now.out.now) }
    {
        self.end == self.out.len()
    }

    // Puts `p` behind what is written, as far as it fits: what `answers::lend` writes is all of a text or nothing.
    pub fn put(&mut self, p: &[u8])
        ensures { Adds p.now self.old self.new }
    {
        let n = p.len().min(self.out.len() - self.end);
        self.out[self.end..self.end + n].copy_from_slice(&p[..n]);
        self.end += n;
    }
}
