ghost use Rattle.bdb_format.specs.Terms.{bucket, first_page, group, hash5, less, number, pad4, records_per_page, spelled};
ghost use Rattle.bdb_format.specs.declared.kinds.Order.TheVariants.{Big, Little};
ghost use Rattle.std.specs.Prelude.{◌≡◌, ◌^◌, ◌-◌, true, false, [], ◌∷◌};

/// Numbers of bytes, and back.
pub fn numbers()
    ensures little { number Little (1 ∷ 2 ∷ 0 ∷ 4 ∷ []) ≡ 0x04000201 }
    ensures big { number Big (1 ∷ 2 ∷ 0 ∷ 4 ∷ []) ≡ 0x01020004 }
    ensures spelled_little { spelled 4 Little 0x04000201 ≡ 1 ∷ 2 ∷ 0 ∷ 4 ∷ [] }
    ensures spelled_big { spelled 4 Big 0x01020004 ≡ 1 ∷ 2 ∷ 0 ∷ 4 ∷ [] }
    ensures two { spelled 2 Big 258 ≡ 1 ∷ 2 ∷ [] }
{}

/// The order of keys: bytewise, unsigned, a proper prefix is less.
pub fn order_of_keys()
    ensures same { less (97 ∷ []) (97 ∷ []) ≡ false }
    ensures none { less [] [] ≡ false }
    ensures nothing_first { less [] (0 ∷ []) ≡ true }
    ensures nothing_last { less (0 ∷ []) [] ≡ false }
    ensures prefix { less (97 ∷ []) (97 ∷ 0 ∷ []) ≡ true }
    ensures longer { less (97 ∷ 98 ∷ []) (97 ∷ []) ≡ false }
    ensures first_byte { less (1 ∷ 255 ∷ []) (2 ∷ []) ≡ true }
    ensures unsigned { less (200 ∷ []) (100 ∷ []) ≡ false }
{}

/// The hash: of nothing, `a`, `ab`, and the 12 bytes whose hash metadata holds.
pub fn hashes()
    ensures nothing { hash5 [] ≡ 0 }
    ensures a { hash5 (97 ∷ []) ≡ 0x61 }
    ensures ab { hash5 (97 ∷ 98 ∷ []) ≡ 0x610098d1 }
    ensures known { hash5 (37 ∷ 36 ∷ 115 ∷ 110 ∷ 105 ∷ 103 ∷ 108 ∷ 101 ∷ 116 ∷ 94 ∷ 38 ∷ 0 ∷ []) ≡ 0x5e688dd1 }
{}

/// Buckets of a table of 6 buckets, and of one.
pub fn buckets()
    ensures within { bucket 5 5 7 3 ≡ 5 }
    ensures above { bucket 6 5 7 3 ≡ 2 }
    ensures masked { bucket 0xffffffff 5 7 3 ≡ 3 }
    ensures one { bucket 0xffffffff 0 0 9 ≡ 0 }
{}

/// Groups of buckets double.
pub fn groups()
    ensures zero { group 0 ≡ 0 }
    ensures one { group 1 ≡ 1 }
    ensures two { group 2 ≡ 2 }
    ensures three { group 3 ≡ 2 }
    ensures four { group 4 ≡ 3 }
    ensures seven { group 7 ≡ 3 }
    ensures half { group (2 ^ 31) ≡ 32 }
    ensures greatest { group (2 ^ 32 - 1) ≡ 32 }
{}

/// First pages of the buckets of a table whose groups begin at pages 3, 4, 6 and 10.
pub fn first_pages()
    ensures zero { first_page 0 (3 ∷ 3 ∷ 4 ∷ 6 ∷ []) ≡ 3 }
    ensures one { first_page 1 (3 ∷ 3 ∷ 4 ∷ 6 ∷ []) ≡ 4 }
    ensures two { first_page 2 (3 ∷ 3 ∷ 4 ∷ 6 ∷ []) ≡ 6 }
    ensures three { first_page 3 (3 ∷ 3 ∷ 4 ∷ 6 ∷ []) ≡ 7 }
    ensures four { first_page 4 (3 ∷ 3 ∷ 4 ∷ 6 ∷ []) ≡ 10 }
{}

/// Records of a queue are padded to a multiple of 4, with a byte that says whether they are valid.
pub fn records()
    ensures padded { pad4 11 ≡ 12 }
    ensures whole { pad4 12 ≡ 12 }
    ensures forty { records_per_page 512 10 ≡ 40 }
    ensures one { records_per_page 512 483 ≡ 1 }
    ensures none { records_per_page 512 484 ≡ 0 }
{}
