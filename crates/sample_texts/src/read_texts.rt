ghost use Rattle.bdb_text_format.specs.of_format.Terms.{plain_settings};
ghost use Rattle.bdb_text_format.specs.of_format.declared.kinds.Kind.TheVariants.{Btree, Hash, Queue, Recno};
ghost use Rattle.bdb_text_format.specs.of_format.declared.kinds.Order.TheVariants.{Big, Little};
ghost use Rattle.bdb_text_format.specs.declared.pairs.Key.TheVariants.{Bytes, Number};
ghost use Rattle.bdb_text_format.specs.declared.faults.TextReason.TheVariants.{NoVersion, Version, UnknownKeyword, BadValue, RepeatedKeyword, NoType};
ghost use Rattle.bdb_text_format.specs.declared.faults.TextReason.TheVariants.{Unsupported};
ghost use Rattle.bdb_text_format.specs.declared.faults.TextReason.TheVariants.{NoSpace, BadDigit, BadEscape, KeyWithoutData, BadNumber, NoEnd, NameMissing};
ghost use Rattle.bdb_text_format.specs.declared.faults.TextReason.TheVariants.{Conflict, NameTwice};
ghost use Rattle.sample_texts.specs.ReadTexts.{IsFaulty, IsRead, headed};
ghost use Rattle.sample_texts.specs.Texts.{lines};
ghost use Rattle.std.specs.Prelude.{◌≡◌, ◌++◌, [], ◌∷◌, codes, false, true, None, Some};

/// A section begins with `VERSION=3`; the empty text has no section.
pub fn first_lines()
    ensures empty { IsFaulty [] 1 NoVersion }
    ensures no_version { IsFaulty (lines ("x" ∷ [])) 1 NoVersion }
    ensures blank_first { IsFaulty (lines ("" ∷ [])) 1 NoVersion }
    ensures other_version { IsFaulty (lines ("VERSION=2" ∷ [])) 1 Version }
    ensures carriage_return { IsFaulty (lines ("VERSION=3\r" ∷ [])) 1 Version }
    ensures no_number { IsFaulty (codes "VERSION=") 1 Version }
    ensures behind { IsFaulty (headed ("type=btree" ∷ "HEADER=END" ∷ "DATA=END" ∷ "" ∷ [])) 5 NoVersion }
{}

/// A header line is a keyword of the table and a value that fits it, and none stands twice: its reasons in their order.
pub fn header_lines()
    ensures no_equals { IsFaulty (headed ("type" ∷ [])) 2 UnknownKeyword }
    ensures unknown { IsFaulty (headed ("typ=btree" ∷ [])) 2 UnknownKeyword }
    ensures equals_first { IsFaulty (headed ("=x" ∷ [])) 2 UnknownKeyword }
    ensures second_version { IsFaulty (headed ("VERSION=3" ∷ [])) 2 UnknownKeyword }
    ensures data_end_in_header { IsFaulty (headed ("DATA=END" ∷ [])) 2 UnknownKeyword }
    ensures blank_end { IsFaulty (headed ("type=btree" ∷ "HEADER=END " ∷ [])) 3 UnknownKeyword }
    ensures repeated { IsFaulty (headed ("type=btree" ∷ "type=heap" ∷ [])) 3 RepeatedKeyword }
    ensures five_before_seven { IsFaulty (headed ("chksum=0" ∷ "chksum=1" ∷ [])) 3 RepeatedKeyword }
    ensures five_before_four { IsFaulty (headed ("keys=1" ∷ "keys=x" ∷ [])) 3 RepeatedKeyword }
    ensures left_out_type { IsFaulty (headed ("type=heap" ∷ [])) 2 Unsupported }
    ensures left_out_chksum { IsFaulty (headed ("chksum=1" ∷ [])) 2 Unsupported }
    ensures left_out_size { IsFaulty (headed ("db_pagesize=0x10000" ∷ [])) 2 Unsupported }
    ensures left_out_extent { IsFaulty (headed ("extentsize=2" ∷ [])) 2 Unsupported }
{}

/// Values that no row of the table takes.
pub fn bad_values()
    ensures bad_format { IsFaulty (headed ("format=hex" ∷ [])) 2 BadValue }
    ensures bad_flag { IsFaulty (headed ("keys=01" ∷ [])) 2 BadValue }
    ensures bad_number { IsFaulty (headed ("re_len=0X10" ∷ [])) 2 BadValue }
    ensures bad_large { IsFaulty (headed ("re_len=4294967296" ∷ [])) 2 BadValue }
    ensures bad_size { IsFaulty (headed ("db_pagesize=256" ∷ [])) 2 BadValue }
    ensures bad_name { IsFaulty (headed ("database=\\4" ∷ [])) 2 BadValue }
    ensures short_hex { IsFaulty (headed ("re_pad=0x" ∷ [])) 2 BadValue }
    ensures nine_hex { IsFaulty (headed ("re_pad=0x000000001" ∷ [])) 2 BadValue }
    ensures eleven { IsFaulty (headed ("re_pad=00000000001" ∷ [])) 2 BadValue }
    ensures empty_value { IsFaulty (headed ("type=" ∷ [])) 2 BadValue }
{}

/// The end of a header: its type, its conflicts and its name, in this order.
pub fn header_ends()
    ensures no_type { IsFaulty (headed ("keys=0" ∷ "HEADER=END" ∷ [])) 3 NoType }
    ensures type_before_conflict { IsFaulty (headed ("keys=0" ∷ "duplicates=1" ∷ "HEADER=END" ∷ [])) 4 NoType }
    ensures conflict_dup { IsFaulty (headed ("duplicates=1" ∷ "type=recno" ∷ "HEADER=END" ∷ [])) 4 Conflict }
    ensures conflict_recnum { IsFaulty (headed ("recnum=1" ∷ "dupsort=1" ∷ "type=btree" ∷ "HEADER=END" ∷ [])) 5 Conflict }
    ensures conflict_keys { IsFaulty (headed ("keys=0" ∷ "type=hash" ∷ "HEADER=END" ∷ [])) 4 Conflict }
    ensures conflict_queue { IsFaulty (headed ("type=queue" ∷ "HEADER=END" ∷ [])) 3 Conflict }
    ensures conflict_renumber { IsFaulty (headed ("type=btree" ∷ "renumber=1" ∷ "HEADER=END" ∷ [])) 4 Conflict }
    ensures conflict_before_missing { IsFaulty (headed ("type=btree" ∷ "HEADER=END" ∷ "DATA=END" ∷ "VERSION=3" ∷ "type=queue" ∷ "HEADER=END" ∷ [])) 7 Conflict }
    ensures missing { IsFaulty (headed ("type=btree" ∷ "HEADER=END" ∷ "DATA=END" ∷ "VERSION=3" ∷ "database=a" ∷ "type=btree"
        ∷ "HEADER=END" ∷ [])) 8 NameMissing }
    ensures missing_second { IsFaulty (headed ("database=a" ∷ "type=btree" ∷ "HEADER=END" ∷ "DATA=END" ∷ "VERSION=3" ∷ "type=btree" ∷ "HEADER=END" ∷ "DATA=END"
        ∷ [])) 8 NameMissing }
    ensures missing_before_twice { IsFaulty (headed ("type=btree" ∷ "HEADER=END" ∷ "DATA=END" ∷ "VERSION=3" ∷ "type=btree" ∷ "HEADER=END" ∷ "DATA=END" ∷ [])) 7
        NameMissing }
    ensures twice { IsFaulty (headed ("database=a" ∷ "type=btree" ∷ "HEADER=END" ∷ "DATA=END" ∷ "VERSION=3" ∷ "database=\\61" ∷ "type=btree" ∷ "HEADER=END"
        ∷ "DATA=END" ∷ [])) 9 NameTwice }
{}

/// Data lines, and the end of the text.
pub fn data_lines()
    ensures no_space { IsFaulty (headed ("type=btree" ∷ "HEADER=END" ∷ "61" ∷ [])) 4 NoSpace }
    ensures eight_before_eleven { IsFaulty (headed ("type=btree" ∷ "HEADER=END" ∷ " 61" ∷ "DATA=END " ∷ [])) 5 NoSpace }
    ensures bad_digit { IsFaulty (headed ("type=btree" ∷ "HEADER=END" ∷ " 6" ∷ [])) 4 BadDigit }
    ensures bad_escape { IsFaulty (headed ("type=btree" ∷ "format=print" ∷ "HEADER=END" ∷ " \\6" ∷ [])) 5 BadEscape }
    ensures ten_before_twelve { IsFaulty (headed ("type=queue" ∷ "re_len=1" ∷ "keys=1" ∷ "format=print" ∷ "HEADER=END" ∷ " \\zz" ∷ [])) 7 BadEscape }
    ensures key_alone { IsFaulty (headed ("type=btree" ∷ "HEADER=END" ∷ " 61" ∷ "DATA=END" ∷ [])) 5 KeyWithoutData }
    ensures bad_record { IsFaulty (headed ("type=recno" ∷ "format=print" ∷ "keys=1" ∷ "HEADER=END" ∷ " 4294967296" ∷ [])) 6 BadNumber }
    ensures empty_number { IsFaulty (headed ("type=recno" ∷ "keys=1" ∷ "HEADER=END" ∷ " " ∷ [])) 5 BadNumber }
    ensures no_end_header { IsFaulty (headed [] ++ codes "type=btree") 3 NoEnd }
    ensures no_end_data { IsFaulty (headed ("type=btree" ∷ "HEADER=END" ∷ " 61" ∷ [])) 5 NoEnd }
    ensures only_version { IsFaulty (codes "VERSION=3") 2 NoEnd }
{}

/// Texts with two lines that have a reason: the first is told, even where the reason of the other is less.
pub fn two_faulty_lines()
    ensures header { IsFaulty (headed ("db_pagesize=0" ∷ "type" ∷ [])) 2 BadValue }
    ensures header_end { IsFaulty (headed ("type=queue" ∷ "HEADER=END" ∷ "61" ∷ [])) 3 Conflict }
    ensures data_line { IsFaulty (headed ("type=btree" ∷ "HEADER=END" ∷ " 6" ∷ "61" ∷ [])) 4 BadDigit }
    ensures sections { IsFaulty (headed ("type=btree" ∷ "HEADER=END" ∷ " 61" ∷ "DATA=END" ∷ "x" ∷ [])) 5 KeyWithoutData }
{}

/// Texts that are read: records without keys, keywords that the type leaves aside, two names of which one is empty, numbers with `0x`,
/// a last line without its line feed, digits in both cases.
pub fn sections()
    ensures keys_off { IsRead (headed ("type=recno" ∷ "keys=0" ∷ "HEADER=END" ∷ " 4A4b" ∷ " " ∷ "DATA=END" ∷ []))
        (record {
          name = None;
          settings = plain_settings Recno 4096 Little;
          header_line = 4;
          pairs = record { key = Number 1; value = (74 ∷ 75 ∷ []); line = 5 }
              ∷ record { key = Number 2; value = []; line = 6 } ∷ [];
        } ∷ []) }
    ensures ignored { IsRead (headed ("type=hash" ∷ "bt_minkey=7" ∷ "re_len=9" ∷ "h_ffactor=0xFf" ∷ "dupsort=1" ∷ "duplicates=0" ∷ "HEADER=END" ∷ " 00" ∷ " 01"
        ∷ "DATA=END" ∷ [])) (record {
          name = None;
          settings = record (plain_settings Hash 4096 Little) { duplicates = true; sorted = true; ffactor = 255 };
          header_line = 8;
          pairs = record { key = Bytes (0 ∷ []); value = (1 ∷ []); line = 9 } ∷ [];
        } ∷ []) }
    ensures two { IsRead (headed ("database=a" ∷ "type=btree" ∷ "HEADER=END" ∷ "DATA=END" ∷ "VERSION=3" ∷ "database=" ∷ "type=hash" ∷ "HEADER=END" ∷ "DATA=END"
        ∷ [])) (record { name = Some (97 ∷ []); settings = plain_settings Btree 4096 Little; header_line = 4; pairs = [] }
        ∷ record { name = Some []; settings = plain_settings Hash 4096 Little; header_line = 9; pairs = [] } ∷ []) }
    ensures recno { IsRead (headed ("type=recno" ∷ "re_pad=0x20" ∷ "format=print" ∷ "re_len=0x3" ∷ "duplicates=0" ∷ "HEADER=END" ∷ " abc" ∷ " d\\65f" ∷ [])
        ++ codes "DATA=END") (record {
          name = None;
          settings = record (plain_settings Recno 4096 Little) { fixed = true; re_len = 3 };
          header_line = 7;
          pairs = record { key = Number 1; value = (97 ∷ 98 ∷ 99 ∷ []); line = 8 } ∷ record { key = Number 2; value = (100 ∷ 101 ∷ 102 ∷ []); line = 9 } ∷ [];
        }
        ∷ []) }
    ensures queue { IsRead (headed ("h_nelem=7" ∷ "db_lorder=0x10E1" ∷ "type=queue" ∷ "keys=1" ∷ "re_len=2" ∷ "extentsize=00" ∷ "HEADER=END" ∷ " 3031" ∷ " ff00"
        ∷ "DATA=END" ∷ [])) (record {
          name = None;
          settings = record (plain_settings Queue 4096 Big) { fixed = true; re_len = 2 };
          header_line = 8;
          pairs = record { key = Number 1; value = (255 ∷ 0 ∷ []); line = 9 } ∷ [];
        } ∷ []) }
{}
