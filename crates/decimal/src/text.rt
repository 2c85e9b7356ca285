// Text put into a lent list.
ghost use Rattle.std.specs.Prelude.{◌≡◌, ◌↔◌, ◌+◌, ◌≤◌, [], ◌∷◌, length, IsTrue};
ghost use Rattle.decimal.specs.Put.{Adds, counted};

// Text that is put into a lent list, a piece after another. What falls past the list's end is counted and not stored.
#[derive(Drop)]
pub struct Text<'a> {
    pub(crate) out: &'a mut [u8],
    pub(crate) at: usize,
}

impl<'a> Text<'a> {
    pub fn new(out: &'a mut [u8]) -> Text<'a>
        ensures same_list { result.out.ghost_name ≡ out.entry.ghost_name }
        ensures untouched { result.out.now ≡ out.old }
        ensures empty { result.at ≡ 0 }
    {
        Text { out, at: 0 }
    }

    // The same from a place of the list on, which may lie past its end.
    pub fn at(out: &'a mut [u8], at: usize) -> Text<'a>
        ensures same_list { result.out.ghost_name ≡ out.entry.ghost_name }
        ensures untouched { result.out.now ≡ out.old }
        ensures place { result.at ≡ at }
    {
        Text { out, at }
    }

    // How many bytes were put, stored or not.
    pub fn len(&self) -> usize
        ensures { result ≡ self.now.at }
    {
        self.at
    }

    pub fn is_empty(&self) -> bool
        ensures { IsTrue result ↔ self.now.at ≡ 0 }
    {
        self.at == 0
    }

    // Whether all that follows is only counted.
    pub(crate) fn is_full(&self) -> bool
        ensures { IsTrue result ↔ length self.now.out.now ≤ self.now.at }
    {
        self.out.len() <= self.at
    }

    // Counts n bytes that are not to be stored.
    pub(crate) fn count(&mut self, n: usize)
        ensures same_list { self.new.out.ghost_name ≡ self.old.out.ghost_name }
        ensures untouched { self.new.out.now ≡ self.old.out.now }
        ensures at { self.new.at ≡ counted (self.old.at + n) }
    {
        self.at = self.at.saturating_add(n);
    }

    // Puts a byte.
    pub fn put(&mut self, b: u8)
        ensures { Adds self.old (b ∷ []) self.new }
    {
        let at = self.at;
        if at < self.out.len() {
            self.out[at] = b;
            self.at = at + 1;
        } else {
            self.at = at.saturating_add(1);
        }
    }

    // Puts the bytes of a text.
    pub fn put_bytes(&mut self, text: &[u8])
        ensures { Adds self.old text.now self.new }
    {
        for b in text {
            self.put(*b);
        }
    }
}
