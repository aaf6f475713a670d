ghost use Rattle.bdb_format.specs.Terms.{body_code, listed_code, overwritten};
ghost use Rattle.bdb_format.specs.declared.pages.PageType.TheVariants.{DupLeaf as DupLeafPage, Hash as HashPage, Internal as InternalPage, Leaf as LeafPage};
ghost use Rattle.bdb_format.specs.declared.pages.PageType.TheVariants.{Overflow as OverflowPage, RecnoInternal as RecnoInternalPage};
ghost use Rattle.bdb_format.specs.declared.pages.PageType.TheVariants.{RecnoLeaf as RecnoLeafPage};
ghost use Rattle.bdb_format.specs.declared.kinds.Order.TheVariants.{Big, Little};
ghost use Rattle.sample_pages.specs.Edges.{chain_key_page, chain_leaf, hash_pair, key_page};
ghost use Rattle.sample_pages.specs.Pages.{dup_leaf_page, hash_page, internal_page, leaf_page, overflow_page, recno_internal_page, recno_leaf_page, zeros};
ghost use Rattle.std.specs.Prelude.{◌≡◌, take, None, Some, [], ◌∷◌};

/// Leaves that end with their last item, and with a byte less.
pub fn leaves()
    ensures pairs { listed_code Little (leaf_page Little) LeafPage ≡ None }
    ensures pairs_cut { listed_code Little (take 73 (leaf_page Little)) LeafPage ≡ Some 22 }
    ensures records { listed_code Big (recno_leaf_page Big) RecnoLeafPage ≡ None }
    ensures records_cut { listed_code Big (take 36 (recno_leaf_page Big)) RecnoLeafPage ≡ Some 22 }
    ensures chain { listed_code Big (chain_leaf Big) RecnoLeafPage ≡ None }
    ensures chain_cut { listed_code Big (take 39 (chain_leaf Big)) RecnoLeafPage ≡ Some 24 }
    ensures unknown { listed_code Big (dup_leaf_page Big) DupLeafPage ≡ Some 23 }
{}

/// Leaves whose index doesn't fit, or whose first item begins in it.
pub fn indices()
    ensures room { listed_code Little (take 27 (chain_leaf Little)) RecnoLeafPage ≡ Some 19 }
    ensures no_item { listed_code Little (take 28 (chain_leaf Little)) RecnoLeafPage ≡ Some 22 }
    ensures below { listed_code Little (overwritten (chain_leaf Little) 26 (27 ∷ [])) RecnoLeafPage ≡ Some 22 }
    ensures odd { listed_code Little (chain_leaf Little) LeafPage ≡ Some 21 }
    ensures level { listed_code Little (overwritten (chain_leaf Little) 24 (2 ∷ [])) RecnoLeafPage ≡ Some 20 }
    ensures set_as_record { listed_code Little (overwritten (chain_leaf Little) 30 (2 ∷ [])) RecnoLeafPage ≡ Some 23 }
{}

/// Internal pages that end with their last item, and with a byte less.
pub fn internal_pages()
    ensures items { listed_code Little (internal_page Little) InternalPage ≡ None }
    ensures items_cut { listed_code Little (take 81 (internal_page Little)) InternalPage ≡ Some 22 }
    ensures key { listed_code Big (key_page Big) InternalPage ≡ None }
    ensures key_cut { listed_code Big (take 41 (key_page Big)) InternalPage ≡ Some 24 }
    ensures level { listed_code Big (overwritten (key_page Big) 24 (1 ∷ [])) InternalPage ≡ Some 20 }
    ensures kind { listed_code Big (overwritten (key_page Big) 30 (2 ∷ [])) InternalPage ≡ Some 23 }
{}

/// Overflow keys have length 12, and the items of recno trees 8 bytes.
pub fn other_internal_pages()
    ensures chain { listed_code Little (take 52 (chain_key_page Little 12)) InternalPage ≡ None }
    ensures chain_cut { listed_code Little (take 51 (chain_key_page Little 12)) InternalPage ≡ Some 24 }
    ensures shorter { listed_code Little (chain_key_page Little 11) InternalPage ≡ Some 24 }
    ensures longer { listed_code Little (chain_key_page Little 13) InternalPage ≡ Some 24 }
    ensures none { listed_code Little (overwritten (key_page Little) 20 (0 ∷ [])) InternalPage ≡ Some 21 }
    ensures records { listed_code Big (recno_internal_page Big) RecnoInternalPage ≡ None }
    ensures records_cut { listed_code Big (take 45 (recno_internal_page Big)) RecnoInternalPage ≡ Some 22 }
    ensures level { listed_code Big (overwritten (recno_internal_page Big) 24 (1 ∷ [])) RecnoInternalPage ≡ Some 20 }
{}

/// Hash pages: offsets fall, and a key needs a byte.
pub fn hash_offsets()
    ensures items { listed_code Little (hash_page Little 2) HashPage ≡ None }
    ensures no_byte { listed_code Little (take 65 (hash_page Little 2)) HashPage ≡ Some 22 }
    ensures same_offset { listed_code Little (overwritten (hash_page Little 2) 32 (42 ∷ [])) HashPage ≡ Some 22 }
    ensures rising { listed_code Little (overwritten (hash_page Little 2) 32 (43 ∷ [])) HashPage ≡ Some 22 }
    ensures below { listed_code Little (overwritten (hash_page Little 2) 32 (33 ∷ [])) HashPage ≡ Some 22 }
    ensures set_as_key { listed_code Little (overwritten (hash_page Little 2) 65 (2 ∷ [])) HashPage ≡ Some 23 }
    ensures deleted { listed_code Little (overwritten (hash_page Little 2) 65 (0x81 ∷ [])) HashPage ≡ Some 23 }
{}

/// Data of hash pages: a chain has 12 bytes, a set off the page 8, and a set is exactly a run of blocks.
pub fn hash_data()
    ensures chain { listed_code Big (hash_pair Big (3 ∷ zeros 11) 42) HashPage ≡ None }
    ensures chain_short { listed_code Big (hash_pair Big (3 ∷ zeros 10) 41) HashPage ≡ Some 24 }
    ensures chain_long { listed_code Big (hash_pair Big (3 ∷ zeros 12) 43) HashPage ≡ Some 24 }
    ensures tree { listed_code Big (hash_pair Big (4 ∷ zeros 7) 38) HashPage ≡ None }
    ensures tree_short { listed_code Big (hash_pair Big (4 ∷ zeros 6) 37) HashPage ≡ Some 24 }
    ensures tree_long { listed_code Big (hash_pair Big (4 ∷ zeros 8) 39) HashPage ≡ Some 24 }
{}

/// The same of sets on their page.
pub fn hash_sets()
    ensures empty { listed_code Big (hash_pair Big (2 ∷ []) 31) HashPage ≡ None }
    ensures block { listed_code Big (hash_pair Big (2 ∷ 0 ∷ 1 ∷ 97 ∷ 0 ∷ 1 ∷ []) 36) HashPage ≡ None }
    ensures other_length { listed_code Big (hash_pair Big (2 ∷ 0 ∷ 1 ∷ 97 ∷ 0 ∷ 2 ∷ []) 36) HashPage ≡ Some 24 }
    ensures cut { listed_code Big (hash_pair Big (2 ∷ 0 ∷ 1 ∷ 97 ∷ 0 ∷ []) 35) HashPage ≡ Some 24 }
    ensures rest { listed_code Big (hash_pair Big (2 ∷ 0 ∷ 1 ∷ 97 ∷ 0 ∷ 1 ∷ 0 ∷ []) 37) HashPage ≡ Some 24 }
{}

/// The data of an overflow page ends with the page, and with a byte less.
pub fn overflow()
    ensures whole { body_code Little (take 284 (overflow_page Little)) OverflowPage ≡ None }
    ensures cut { body_code Little (take 283 (overflow_page Little)) OverflowPage ≡ Some 25 }
{}
