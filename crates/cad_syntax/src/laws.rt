// Laws of the definitions, which hold of every value.
ghost use Rattle.std.specs.Prelude.{◌≡◌, ◌<◌, ◌^◌, ◌↔◌, ℕ, List, Some, true};
ghost use Rattle.cad_syntax.specs.declared.keyword.Keyword.{Keyword};
ghost use Rattle.cad_syntax.specs.Addresses.{address_of, address_text};
ghost use Rattle.cad_syntax.specs.Keywords.{keyword_spelling};
ghost use Rattle.cad_syntax.specs.Names.{is_keyword};
ghost use Rattle.cad_syntax.specs.TypeIds.{OneIdentifier};

/// The text of an address writes that address.
pub fn addresses_read_back()
    ensures { (address : ℕ) → address < 2 ^ 64 → address_of (address_text address) ≡ Some address }
{}

/// A text is that of one identifier at most.
pub fn identifiers_read_back()
    ensures { OneIdentifier }
{}

/// A text is taken for a keyword exactly where one is spelled so.
pub fn keywords_are_spelled()
    ensures { (text : List ℕ) → (is_keyword text ≡ true) ↔ ((k : Keyword) × (keyword_spelling k ≡ text)) }
{}
