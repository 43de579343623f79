// A cue's settings, read from a part of a text. Any bytes and any places are taken; every function ends in linear time.
#![tactic(auto)]

ghost use Rattle.std.specs.Prelude.{◌≡◌};
ghost use Rattle.format.specs.CueSettings.{cue_settings};
ghost use Rattle.values.specs.Tokens.{part_of};
ghost use Rattle.cue_settings.specs.Steps.{taken_is};

use steps::CueTaken;

mod overs;
pub mod steps;

// The settings that the text from `from` up to `to` gives.
pub fn all_settings(text: &[u8], from: usize, to: usize) -> CueTaken
    ensures { result ≡ taken_is (cue_settings (part_of text.now from to)) }
{
    let end = to.min(text.len());
    let start = from.min(end);
    steps::read_settings(&text[..end], start)
}

// Has a setting that the text from `from` up to `to` gives a number above its limit.
pub fn any_over(text: &[u8], from: usize, to: usize) -> bool
    ensures { result ≡ (cue_settings (part_of text.now from to)).over }
{
    let end = to.min(text.len());
    let start = from.min(end);
    overs::any_token_over(&text[..end], start)
}
