#![tactic(auto)]
// The tokens of a tree, the reader as a machine over tokens and the theorems on them are definitions in specs/ and proofs in proofs/; the code has only
// the places that a node may stand in.

ghost use Rattle.std.specs.Prelude.{◌≡◌};
ghost use Rattle.tokens.specs.Kinds.{shown_key};
ghost use Rattle.grammar.specs.Machine.{allows};
ghost use Rattle.grammar.specs.Places.{place_of};

use tokens::Keyword;

// "The text is one flow, the root. Child: leaf, constructor or flow. Member: leaf or flow."
#[derive(Clone, Copy, Debug, PartialEq, Eq)]
pub enum Place {
    Root,
    Member,
    Child,
}

impl Place {
    // Whether a node with this keyword may stand here.
    pub fn allows(self, keyword: Keyword) -> bool
        ensures { result ≡ allows (place_of self) (shown_key keyword) }
    {
        match self {
            Place::Root => keyword == Keyword::Flow,
            Place::Member => keyword == Keyword::Flow || keyword == Keyword::Leaf,
            Place::Child => true,
        }
    }
}
