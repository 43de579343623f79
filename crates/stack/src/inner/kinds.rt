// A stack of kinds of open nodes in lent words: three bits a kind, twenty-one kinds a word, so that a cue text of 63 bytes needs one word.
// The kinds are numbers below 8. The top word is kept in the stack itself, and only full words go to the lent ones.
ghost use Rattle.std.specs.Prelude.{ℕ, ◌≡◌, ◌^◌, ◌<◌, ◌≤◌, length, get_or};

#[derive(Drop)]
pub struct Stack<'a> {
    pub words: &'a mut [u64],
    // How many words are filled.
    pub full: usize,
    // How many kinds the top word has.
    pub held: usize,
    pub top: u64,

    // Only an empty stack has no kind in its top word, and each word has no more than its kinds.
    ghost most: { held ≤ 21 },
    ghost some: { held ≡ 0 → full ≡ 0 },
    ghost small: { top < 8 ^ held },
    ghost fits: { full ≤ length words.now },
    ghost filled: { (i : ℕ) → i < full → get_or words.now i 0 < 8 ^ 21 },
}

impl<'a> Stack<'a> {
    ghost use Rattle.std.specs.Prelude.{ℕ, ◌≡◌, [], ◌∷◌, ◌*◌, ◌<◌, length, drop};
    ghost use Rattle.stack.specs.Kinds.{kinds, top_of};

    pub fn empty(words: &'a mut [u64]) -> Stack<'a>
        ensures is { kinds result ≡ [] }
        ensures long { length result.words.now ≡ length words.old }
        ensures kept { result.words.now ≡ words.old }
        ensures lent { result.words.ghost_name ≡ words.entry.ghost_name }
    {
        Stack {
            words,
            full: 0,
            held: 0,
            top: 0,
        }
    }

    // The top kind, if any.
    pub fn top(&self) -> Option<u64>
        ensures { result ≡ top_of (kinds self.now) }
    {
        if self.held == 0 {
            return None;
        }
        Some(self.top % 8)
    }

    // Puts a kind on. A full top word goes to the lent words first.
    pub fn push(&mut self, kind: u64)
        requires { (kind < 8) × (length (kinds self.old) < 21 * length self.old.words.now) }
        ensures is { kinds self.new ≡ kind ∷ kinds self.old }
        ensures long { length self.new.words.now ≡ length self.old.words.now }
        ensures lent { self.new.words.ghost_name ≡ self.old.words.ghost_name }
    {
        if self.held < 21 {
            self.held += 1;
            self.top = self.top * 8 + kind;
        } else {
            self.words[self.full] = self.top;
            self.full += 1;
            self.held = 1;
            self.top = kind;
        }
    }

    // Takes the top kind off; an empty stack stays as it is. The word filled last comes back when the top word has no other kind. The lent words
    // stay as they were.
    pub fn pop(&mut self)
        ensures is { kinds self.new ≡ drop 1 (kinds self.old) }
        ensures long { length self.new.words.now ≡ length self.old.words.now }
        ensures kept { self.new.words.now ≡ self.old.words.now }
        ensures lent { self.new.words.ghost_name ≡ self.old.words.ghost_name }
    {
        if self.held == 1 && 0 < self.full {
            self.full -= 1;
            self.held = 21;
            self.top = self.words[self.full];
        } else if 0 < self.held {
            self.held -= 1;
            self.top /= 8;
        }
    }
}
