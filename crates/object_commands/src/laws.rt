//! What holds of listings.
ghost use Rattle.std.specs.Prelude.{◌≡◌, ◌<◌, ℕ, [], ◌∷◌};
ghost use Rattle.ecoff_load.specs.declared.image.Text.{Text};
ghost use Rattle.ecoff_load.specs.Fetch.{IsInstruction};
ghost use Rattle.journal.specs.Write.{output_of};
ghost use Rattle.object_commands.specs.Listing.{instruction_count, place_of, listing_of, listing_writes};

/// A listing has a line for each whole instruction of a text, and no other.
#[tactic(auto, using(crate::proofs::Listed::each_is_listed, crate::proofs::Listed::listed_is_whole))]
pub fn listings_have_each_instruction()
    ensures each { (text : Text) (pc : ℕ) → IsInstruction text pc → (k : ℕ) × (k < instruction_count text) × (pc ≡ place_of text k) }
    ensures only { (text : Text) (k : ℕ) → k < instruction_count text → IsInstruction text (place_of text k) }
{}

/// The pieces in which a listing is put make it up.
#[tactic(auto, using(crate::proofs::Listed::pieces_make_listing))]
pub fn listings_are_put_whole()
    ensures { (text : Text) → output_of (listing_writes text) ≡ listing_of text }
{}
