//! Laws of the bytes of structures.

ghost use Rattle.std.specs.Prelude.{◌≡◌, ◌<◌, ◌^◌, ℕ, List, length, All};
ghost use Rattle.rd_value.specs.Lawful.{IsLawful};
ghost use Rattle.rd_value.specs.declared.signature.Parameter.{Parameter};
ghost use Rattle.rd_tree.specs.declared.tree.Statement.{Statement};
ghost use Rattle.rd_code.specs.declared.named.Helper.{Helper};
ghost use Rattle.rd_code.specs.declared.named.NamedUse.{NamedUse};
ghost use Rattle.rd_structure.specs.Structure.{structure};
ghost use Rattle.rd_structure.specs.Values.{values_in_code};

/// No two codes of tasks have one structure, where the values of one are lawful, as those that a program holds are,
/// and its structure is shorter than 2 ^ 64 bytes. The other may be any at all.
pub fn one_structure()
    ensures parts { (n n' : List ℕ) (ps ps' : List Parameter) (b b' : List (Statement (List ℕ)))
        (hs hs' : List Helper) (us us' : List NamedUse)
        → All IsLawful (values_in_code ps b hs)
        → length (structure n ps b hs us) < 2 ^ 64
        → structure n ps b hs us ≡ structure n' ps' b' hs' us'
        → (n ≡ n') × (ps ≡ ps') × (b ≡ b') × (hs ≡ hs') × (us ≡ us') }
{}
