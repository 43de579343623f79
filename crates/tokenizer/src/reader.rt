// A reader that stands over one cue's text and a place in it, and hands out the tokens one after the other. It is thin: each method takes it
// apart and leaves the work to a function on the text and the place. That the tokens so handed out from the text's start on are the text's
// tokens is `handed_out_lem` of `proofs/HandedOut.antt`.
ghost use Rattle.std.specs.Prelude.{◌≡◌, leb, length};
ghost use Rattle.tokenizer.specs.Tags.{step_is, StepAt};
ghost use Rattle.tokenizer.specs.Reader.{moved_to};

use super::{Stepped, place_after, step};

#[derive(Drop)]
pub struct Tokenizer<'a> {
    pub text: &'a [u8],
    pub at: usize,
}

impl<'a> Tokenizer<'a> {
    // At the text's start.
    pub fn over(text: &'a [u8]) -> Tokenizer<'a>
        ensures { result ≡ record { text = text.entry; at = 0 } }
    {
        Tokenizer { text, at: 0 }
    }

    // Has the text no byte at the place, so that no token is left.
    pub fn is_at_end(self) -> bool
        ensures { result ≡ leb (length self.entry.text.now) self.entry.at }
    {
        self.text.len() <= self.at
    }

    // The token that begins at the place. The reader moves on past it. No `Iterator`, for docs/PROMISES.md names this method's three promises.
    pub fn next(&mut self) -> Option<Stepped>
        ensures is { result ≡ step_is self.old.text.now self.old.at }
        ensures at { StepAt self.old.text.now self.old.at result }
        ensures moved { self.new ≡ record { text = self.old.text; at = moved_to (step_is self.old.text.now self.old.at) self.old.at } }
    {
        let stepped = step(self.text, self.at);
        self.at = place_after(stepped, self.at);
        stepped
    }
}

// The token that begins at a place of a text, for a caller that holds no reader.
pub fn token_at(text: &[u8], at: usize) -> Option<Stepped>
    ensures is { result ≡ step_is text.now at }
    ensures at { StepAt text.now at result }
{
    let mut tokenizer = Tokenizer { text, at };
    tokenizer.next()
}
