//! What follows from the definitions, each law as the contract of a function that does nothing.
ghost use Rattle.std.specs.Prelude.{◌≡◌, ℕ, ◌^◌, ◌<◌, ◌++◌, ◌∷◌, [], Bool, true, false, List, Option, length, None, decimal, Some, Ok, Err, ◌↔◌, ◌⊎◌};
ghost use Rattle.ecoff_load.specs.Start.{block};
ghost use Rattle.sim_opts.specs.Word.{digits_of, start_block_length};
ghost use Rattle.sim_opts.specs.declared.table.Tool.{Tool};
ghost use Rattle.ss_base.specs.declared.text_fault.TextWhy.{TextWhy};
ghost use Rattle.ss_base.specs.declared.text_fault.AsmFault.TheVariants as faults;
ghost use Rattle.sim_opts.specs.Table.{Row, tool_name, row_named};
ghost use Rattle.sim_opts.specs.Settings.{Setting, of_option, count, is_given, written, AreSettings};
ghost use Rattle.sim_opts.specs.Options.{said_by, given_in};
ghost use Rattle.sim_opts.specs.Configuration.{AreLines, IsWrongLine, read_lines, with_configuration, together};
ghost use Rattle.sim_opts.specs.Words.{Asks, asks, Ask, IsFirstWrong, begins_with_option, operands_fault, read, is_unbuilt};
ghost use Rattle.sim_opts.specs.Request.{Text, Words, told_place, asked, request_with};
ghost use Rattle.text_lines.specs.Lines.{lines_of};
ghost use Rattle.sim_opts.specs.declared.words.Wrong.{Wrong};

/// A word is a number exactly where it is the number's decimal digits, of which there are at most 13.
pub fn numbers_have_one_word()
    ensures { (word : List ℕ) (n : ℕ)
        → (digits_of word ≡ Some n) ↔ ((word ≡ decimal n) × (n < 10 ^ 13)) }
{}

/// A start block has the same length in both byte orders.
#[tactic(auto, using(crate::proofs::Starts::block_has_length))]
pub fn start_blocks_have_their_length()
    ensures { (big : Bool) (args : List (List ℕ)) → length (block big args) ≡ start_block_length args }
{}

/// Words are read as asking for something exactly where the grammar says that they do.
pub fn words_are_read_by_the_grammar()
    ensures { (words : List (List ℕ)) (a : Asks) → Ask words a ↔ (read words ≡ Ok a) }
{}

/// Words are refused at a place for a reason exactly where the grammar says that this is the first
/// wrong place and its reason.
#[tactic(auto, using(crate::proofs::Grammar::wrong_iff_read))]
pub fn words_are_refused_at_the_first_wrong_place()
    ensures { (words : List (List ℕ)) (w : Wrong) → IsFirstWrong words w ↔ (read words ≡ Err w) }
{}

/// Words ask for one thing at most.
#[tactic(auto, using(crate::proofs::Grammar::asks_once))]
pub fn words_ask_for_one_thing_at_most()
    ensures { (words : List (List ℕ)) (first second : Asks) → Ask words first → Ask words second → first ≡ second }
{}

/// Words ask for something or are wrong somewhere, and never both.
#[tactic(auto, using(crate::proofs::Grammar::never_both))]
pub fn words_ask_for_something_or_are_wrong()
    ensures some { (words : List (List ℕ)) → ((a : Asks) × Ask words a) ⊎ ((w : Wrong) × IsFirstWrong words w) }
    ensures exclusive { (words : List (List ℕ)) (a : Asks) (w : Wrong) → Ask words a → IsFirstWrong words w → ⊥ }
{}

/// Words that have the same options each, in whatever order of the options, with the same behind
/// them, say the same.
pub fn the_order_of_options_says_nothing()
    ensures { (tool : Tool) (operands : List (List ℕ)) (first second : List Setting)
        → ((n : ℕ) → of_option n first ≡ of_option n second)
        → said_by (asks tool first operands) ≡ said_by (asks tool second operands) }
{}

/// Where no limit stands among the words, it is 1,000,000,000.
pub fn a_limit_that_is_left_out_has_its_default()
    ensures { (tool : Tool) (operands : List (List ℕ)) (settings : List Setting)
        → count 6 settings ≡ 0 → (said_by (asks tool settings operands)).max_inst ≡ 1000000000 }
{}

/// Words that are written from options that may stand, in any order, are read as just these.
pub fn written_options_are_read_back()
    ensures { (tool : Tool) (settings : List Setting) (operands : List (List ℕ))
        → AreSettings tool [] settings → begins_with_option operands ≡ false → operands_fault tool settings operands ≡ None
        → read (tool_name tool ∷ (written settings ++ operands)) ≡ Ok (asks tool settings operands) }
{}

/// Lines of a configuration are read as saying options exactly where the grammar says that they do.
pub fn configurations_are_read_by_the_grammar()
    ensures { (tool : Tool) (lines : List (List ℕ)) (settings : List Setting)
        → AreLines tool [] lines settings ↔ (read_lines tool 1 [] lines ≡ Ok settings) }
{}

/// Lines of a configuration are refused at a line for a reason exactly where the grammar says that this
/// is the first wrong line and its reason.
pub fn configurations_are_refused_at_the_first_wrong_line()
    ensures { (tool : Tool) (lines : List (List ℕ)) (number : ℕ) (reason : TextWhy)
        → IsWrongLine tool lines number reason ↔ (read_lines tool 1 [] lines ≡ Err (faults.Bad number reason)) }
{}

/// A configuration says what words would that have its options behind their own, without those that
/// the words have.
pub fn a_configuration_says_what_words_would()
    ensures { (tool : Tool) (operands : List (List ℕ)) (words lines : List Setting)
        → with_configuration (said_by (asks tool words operands)) lines
        ≡ record (said_by (asks tool (together words lines) operands)) { given = given_in words } }
{}

/// Of an option that stands among the words, what the words say holds; of one that does not, what the
/// configuration says.
pub fn an_option_among_the_words_wins()
    ensures words { (words lines : List Setting) (name : List ℕ) (row : Row) → row_named name ≡ Some row
        → is_given row.number words ≡ true → of_option row.number (together words lines) ≡ of_option row.number words }
    ensures configuration { (words lines : List Setting) (number : ℕ)
        → is_given number words ≡ false → of_option number (together words lines) ≡ of_option number lines }
{}

/// What words ask for, as the grammars say: words that ask for something ask for what they say, together
/// with the lines of a configuration; a wrong line of that is told, and so is the first wrong word, unless
/// the first word names a command that is not built.
pub fn requests_follow_the_grammars()
    ensures alone { (words : List (List ℕ)) (a : Asks) → Ask words a → request_with words None ≡ asked (length words) (said_by a) }
    ensures together { (words : List (List ℕ)) (text : List ℕ) (a : Asks) (settings : List Setting) → Ask words a → AreLines a.tool [] (lines_of text) settings
        → request_with words (Some text) ≡ asked (length words) (with_configuration (said_by a) settings) }
    ensures line { (words : List (List ℕ)) (text : List ℕ) (a : Asks) (number : ℕ) (reason : TextWhy) → Ask words a → IsWrongLine a.tool (lines_of text) number reason
        → request_with words (Some text) ≡ Text number reason }
    ensures word { (words : List (List ℕ)) (text : Option (List ℕ)) (w : Wrong) → is_unbuilt words ≡ false → IsFirstWrong words w
        → request_with words text ≡ Words (told_place w.at) w.why }
{}
