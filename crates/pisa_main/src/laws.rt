//! A law of words that could not be collected.
ghost use Rattle.std.specs.Prelude.{◌≡◌, ℕ, List, Option};
ghost use Rattle.sim_opts.specs.declared.words.WordWhy.TheVariants as why;
ghost use Rattle.sim_opts.specs.Request.{Words, request_with};
ghost use Rattle.pisa_main.specs.Performs.{no_text};

/// Words that are no text ask for nothing: the first of them is no command.
#[tactic(auto, using(crate::proofs::NoText::refused_at_once))]
pub fn words_that_are_no_text_are_no_command()
    ensures { (text : Option (List ℕ)) → request_with no_text text ≡ Words 0 why.Command }
{}
