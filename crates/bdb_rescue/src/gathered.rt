//! What is salvaged as pairs of a section.
ghost use Rattle.std.specs.Prelude.{◌≡◌, ◌==◌, ◌<◌, ◌∷◌, ◌+◌, ◌*◌, ◌++◌, ◌≤◌, ◌^◌, [], ℕ, List, IfOk, IfSome, IsTrue, OnOk, drop, length, map, take};
ghost use Rattle.std.specs.List.{All, Contains, filter, flat_map};
ghost use Rattle.bdb_rescue.specs.Gathered.{Adds, Grows, StandFrom, has_length, is_record_of, loose_pair, loose_pairs, set_data, stored_pair};
ghost use Rattle.bdb_rescue.specs.Kept.{IsKeptPair, IsKeptValue, data_at, data_here, file_in, given_live, item_of, numbered_at, untaken_on, value_at};
ghost use Rattle.bdb_survey.specs.Items.{is_valued};
ghost use Rattle.bdb_survey.specs.Salvage.{is_whole, loose, set_starts, stored, stored_on};
ghost use Rattle.bdb_survey.specs.of_layout.Seen.{content_seen};
ghost use Rattle.bdb_survey.specs.of_overflow.Datum.{datum_seen};
ghost use Rattle.bdb_rescue.specs.declared.kept.DataPlace.TheVariants.{Here};
ghost use Rattle.bdb_text_format.specs.declared.pairs.TextPair.{TextPair};
ghost use Rattle.bdb_text_format.specs.of_places.Places.{span_in};
ghost use Rattle.bdb_text_format.specs.Terms.{HasChains, IsKeyPlaced, IsPiecePut, IsSpanOf, Keeps};
ghost use Rattle.bdb_text_format.specs.of_format.Terms.{Chain, value_of};

use crate::Salvaged;
use crate::kept::{DataPlace, KeptPair, KeptValue};
use crate::on_page::{ItemAt, OnPages, begin_of};
use crate::places::Places;
use bdb_survey::{Content, Datum, DupBlocks, bytes_in};
use bdb_text_format::{Gathered, PlacedKey, Span, TextPairs};
use std::alloc::{AllocError, Global};
use std::collections::BTreeMap;
use std::marker::Model;

/// Pairs of a section in the making, of what is salvaged of an image. The value of a chain and the data of a set are copied once, however many items
/// name them: so the copies have at most three times the bytes of the image. Beside them each pair takes 32 bytes.
#[derive(Drop)]
pub struct Gatherer<'s, 'a> {
    salvaged: &'s Salvaged<'a>,
    pairs: Gathered,
    // At which pair the data of a set begin, by its first leaf.
    sets: BTreeMap<u32, usize>,
    room: Vec<u8>,
    on: OnPages,
}

impl<'s, 'a> Model for Gatherer<'s, 'a> {
    ghost use Rattle.bdb_rescue.specs.Gathered.{InHand, IsInHand};
    ghost use Rattle.bdb_rescue.specs.Kept.{file_in};

    ghost Value = { InHand };

    ghost view = { λ it. record { reading = it.salvaged.now; gathered = it.pairs } };

    ghost invariant = { λ it. IsInHand (file_in it.salvaged.now) it.pairs it.sets };
}

// Adds the value of the chain with this head, whose pieces are joined in a room.
fn put_chain(
    head: u32,
    value: Datum<'_>,
    room: &mut Vec<u8>,
    pairs: &mut Gathered,
) -> Result<Span, AllocError>
    ensures kept { Keeps pairs.old.bytes pairs.new.bytes }
    ensures pairs { pairs.new.pairs ≡ pairs.old.pairs }
    ensures chains { (chain : ℕ → List ℕ) → datum_seen value.entry ≡ chain head → HasChains chain pairs.old → HasChains chain pairs.new }
    ensures ok { IfOk result (IsPiecePut pairs.new.bytes (datum_seen value.entry)) }
{
    let bytes = bytes_in(value, room)?;
    pairs.put_chain(head, bytes)
}

#[tactic(auto, using(crate::proofs::GatheredLemmas::in_hand))]
impl<'s, 'a> Gatherer<'s, 'a> {
    // Where the value of a whole chain stands.
    #[tactic(auto, using(crate::proofs::GatheredLemmas::in_hand), unfolding(crate::specs::Below::value_of))]
    fn chain_span(&mut self, head: u32, total: u32) -> Result<Span, AllocError>
        requires { IsTrue (is_whole (file_in self.old.reading) head total) }
        ensures grows { Grows self.old self.new }
        ensures ok { IfOk result (IsPiecePut self.new.gathered.bytes (value_of (file_in self.old.reading) (Chain head total))) }
    {
        if let Some(span) = self.pairs.chain(head) {
            return Ok(span);
        }
        let value = self.salvaged.chained(head, total);
        put_chain(head, value, &mut self.room, &mut self.pairs)
    }

    // Where bytes of an item stand, so many behind where it begins.
    fn bytes_span(&mut self, bytes: &[u8], item: ItemAt, skip: usize) -> Result<Span, AllocError>
        ensures grows { Grows self.old self.new }
        ensures ok { IfOk result (IsPiecePut self.new.gathered.bytes bytes.now) }
    {
        let page = self.salvaged.page_bytes(item.page);
        let begin = begin_of(page, self.salvaged.guess().order, item.index);
        let room = self.on.room(item, page.len());
        self.pairs
            .put_item(bytes, page, begin.saturating_add(skip), room)
    }

    // Where the value of an item stands that has one by itself.
    #[tactic(auto, unfolding(crate::specs::Below::value_of))]
    fn span(&mut self, content: Content<'a>, item: ItemAt) -> Result<Span, AllocError>
        requires { IsTrue (is_valued (file_in self.old.reading) (content_seen content)) }
        ensures grows { Grows self.old self.new }
        ensures ok { IfOk result (IsPiecePut self.new.gathered.bytes (value_of (file_in self.old.reading) (content_seen content.entry))) }
    {
        match content {
            Content::Inline(bytes) => self.bytes_span(bytes, item, 0),
            Content::Overflow { head, total } => self.chain_span(head, total),
            Content::Set(_) | Content::OffPage { .. } => self.bytes_span(&[], item, 0),
        }
    }

    // Adds a key with a datum that stands there.
    fn push_span(&mut self, key: PlacedKey, value: Span) -> Result<(), AllocError>
        requires key { IsKeyPlaced self.old.gathered.bytes key }
        requires value { IsSpanOf self.old.gathered.bytes value }
        ensures { OnOk result (Adds self.old self.new key (span_in self.old.gathered.bytes value ∷ [])) }
    {
        self.pairs.push(key, value)
    }

    // Adds a key with the value of an item.
    fn push(&mut self, key: PlacedKey, content: Content<'a>, item: ItemAt) -> Result<(), AllocError>
        requires valued { IsTrue (is_valued (file_in self.old.reading) (content_seen content)) }
        requires key { IsKeyPlaced self.old.gathered.bytes key }
        ensures { OnOk result (Adds self.old self.new key (value_of (file_in self.old.reading) (content_seen content.entry) ∷ [])) }
    {
        let value = self.span(content, item)?;
        self.push_span(key, value)
    }

    // Adds a key with some bytes of an item.
    fn push_bytes(
        &mut self,
        key: PlacedKey,
        bytes: &[u8],
        item: ItemAt,
        skip: usize,
    ) -> Result<(), AllocError>
        requires { IsKeyPlaced self.old.gathered.bytes key }
        ensures { OnOk result (Adds self.old self.new key (bytes.now ∷ [])) }
    {
        let value = self.bytes_span(bytes, item, skip)?;
        self.push_span(key, value)
    }

    // Adds a key with each datum of a set on its page, each between two lengths of two bytes.
    #[tactic(auto, using(crate::proofs::GatheredLemmas::so_far_adds))]
    fn push_blocks(
        &mut self,
        key: PlacedKey,
        blocks: DupBlocks<'a>,
        item: ItemAt,
    ) -> Result<(), AllocError>
        requires { IsKeyPlaced self.old.gathered.bytes key }
        ensures { OnOk result (Adds self.old self.new key blocks.entry.blocks) }
    {
        let mut skip: usize = 2;
        for block in blocks {
            self.push_bytes(key, block, item, skip)?;
            skip = skip.saturating_add(block.len()).saturating_add(4);
        }
        Ok(())
    }

    // Adds a key with the value at a place.
    fn push_place(&mut self, key: PlacedKey, place: KeptValue) -> Result<(), AllocError>
        requires kept { IsKeptValue (file_in self.old.reading) place }
        requires key { IsKeyPlaced self.old.gathered.bytes key }
        ensures { OnOk result (Adds self.old self.new key (value_at (file_in self.old.reading) place ∷ [])) }
    {
        let item = ItemAt {
            page: place.page,
            index: u32::from(place.index),
            paired: false,
        };
        let content = self.salvaged.pages().content(item.page, item.index);
        self.push(key, content, item)
    }

    // Adds a key with the value at each of some places.
    #[tactic(auto, using(crate::proofs::GatheredLemmas::so_far_adds, crate::proofs::LeftLemmas::values_rest, crate::proofs::LeftLemmas::first_value))]
    fn push_places(&mut self, key: PlacedKey, places: &[KeptValue]) -> Result<(), AllocError>
        requires kept { All (IsKeptValue (file_in self.old.reading)) places.now }
        requires key { IsKeyPlaced self.old.gathered.bytes key }
        ensures { OnOk result (Adds self.old self.new key (map (value_at (file_in self.old.reading)) places.now)) }
    {
        for place in Places::over(places) {
            self.push_place(key, place)?;
        }
        Ok(())
    }

    // At which pair the data of the set begin whose first leaf this is, if they stand there.
    fn set_from(&self, leaf: u32) -> Option<usize>
        ensures { IfSome result (StandFrom self.now.gathered.pairs (set_data (file_in self.now.reading) leaf)) }
    {
        match self.sets.get(&leaf) {
            Some(from) => Some(*from),
            None => None,
        }
    }

    // Adds a key with data that stand there.
    fn push_again(&mut self, key: PlacedKey, from: usize, count: usize) -> Result<(), AllocError>
        requires key { IsKeyPlaced self.old.gathered.bytes key }
        requires there { from + count ≤ length self.old.gathered.pairs }
        ensures { OnOk result (Adds self.old self.new key (map (λ (pair : TextPair). pair.value) (take count (drop from self.old.gathered.pairs)))) }
    {
        let to = self.pairs.len().min(from.saturating_add(count));
        self.pairs.push_again(key, from, to)
    }

    // Adds a key with the data of a set, and notes where these stand.
    fn push_new_set(
        &mut self,
        key: PlacedKey,
        leaf: u32,
        places: &[KeptValue],
    ) -> Result<(), AllocError>
        requires kept { All (IsKeptValue (file_in self.old.reading)) places.now }
        requires places { map (value_at (file_in self.old.reading)) places.now ≡ set_data (file_in self.old.reading) leaf }
        requires key { IsKeyPlaced self.old.gathered.bytes key }
        ensures { OnOk result (Adds self.old self.new key (set_data (file_in self.old.reading) leaf)) }
    {
        let from = self.pairs.len();
        self.push_places(key, places)?;
        self.sets.insert(leaf, from)?;
        Ok(())
    }

    // Adds a key with the data of the set whose first leaf this is.
    #[tactic(auto, using(crate::proofs::GatheredLemmas::in_hand, crate::proofs::KeptLemmas::all_in_set))]
    fn push_set(&mut self, key: PlacedKey, leaf: u32) -> Result<(), AllocError>
        requires starts { Contains (set_starts (file_in self.old.reading)) leaf }
        requires key { IsKeyPlaced self.old.gathered.bytes key }
        ensures { OnOk result (Adds self.old self.new key (set_data (file_in self.old.reading) leaf)) }
    {
        let places = self.salvaged.places_in(leaf);
        match self.set_from(leaf) {
            Some(from) => self.push_again(key, from, places.len()),
            None => self.push_new_set(key, leaf, places),
        }
    }

    // Adds a key with the data in the data item of a pair.
    #[tactic(auto, using(crate::proofs::LooseLemmas::set_values), unfolding(crate::specs::Below::value_of))]
    fn push_here(&mut self, key: PlacedKey, pair: KeptPair) -> Result<(), AllocError>
        requires pair { IsKeptPair (file_in self.old.reading) pair }
        requires here { pair.place ≡ Here }
        requires key { IsKeyPlaced self.old.gathered.bytes key }
        ensures { OnOk result (Adds self.old self.new key
            (data_here (file_in self.old.reading) (item_of (file_in self.old.reading) pair.page (2 * pair.index + 1)).content)) }
    {
        let item = ItemAt {
            page: pair.page,
            index: 2 * u32::from(pair.index) + 1,
            paired: true,
        };
        match self.salvaged.pages().content(item.page, item.index) {
            Content::Inline(bytes) => self.push_bytes(key, bytes, item, 0),
            Content::Set(blocks) => self.push_blocks(key, blocks, item),
            Content::Overflow { head, total } => {
                self.push(key, Content::Overflow { head, total }, item)
            }
            Content::OffPage { .. } => Ok(()),
        }
    }

    // Adds a key with the data of a pair.
    #[tactic(auto, using(crate::proofs::LooseLemmas::set_values))]
    fn push_data(&mut self, key: PlacedKey, pair: KeptPair) -> Result<(), AllocError>
        requires pair { IsKeptPair (file_in self.old.reading) pair }
        requires key { IsKeyPlaced self.old.gathered.bytes key }
        ensures { OnOk result (Adds self.old self.new key
            (data_at (file_in self.old.reading) (item_of (file_in self.old.reading) pair.page (2 * pair.index + 1)).content pair.place)) }
    {
        match pair.place {
            DataPlace::Here => self.push_here(key, pair),
            DataPlace::Set { leaf } => self.push_set(key, leaf),
        }
    }

    // Where the key of a pair stands.
    fn key_span(&mut self, pair: KeptPair) -> Result<Span, AllocError>
        requires { IsKeptPair (file_in self.old.reading) pair }
        ensures grows { Grows self.old self.new }
        ensures ok { IfOk result (IsPiecePut self.new.gathered.bytes
            (value_of (file_in self.old.reading) (item_of (file_in self.old.reading) pair.page (2 * pair.index)).content)) }
    {
        let item = ItemAt {
            page: pair.page,
            index: 2 * u32::from(pair.index),
            paired: true,
        };
        let content = self.salvaged.pages().content(item.page, item.index);
        self.span(content, item)
    }

    // Adds what a kept pair gives. Its key stands there once for all its data.
    fn push_pair(&mut self, pair: KeptPair) -> Result<(), AllocError>
        requires { IsKeptPair (file_in self.old.reading) pair }
        ensures reading { OnOk result (self.new.reading ≡ self.old.reading) }
        ensures pairs { OnOk result (self.new.gathered.pairs ≡ self.old.gathered.pairs ++ map stored_pair (given_live (file_in self.old.reading) pair)) }
    {
        if !pair.live {
            return Ok(());
        }
        let key = self.key_span(pair)?;
        self.push_data(PlacedKey::Bytes(key), pair)?;
        Ok(())
    }

    // Whether the value at a place has so many bytes. Of a chain its item tells that.
    #[tactic(auto, unfolding(crate::specs::Below::value_of, crate::specs::Below::is_whole))]
    fn has_len(&self, place: KeptValue, len: u32) -> bool
        requires { IsKeptValue (file_in self.now.reading) place }
        ensures { result ≡ (length (value_at (file_in self.now.reading) place) == len) }
    {
        match self
            .salvaged
            .pages()
            .content(place.page, u32::from(place.index))
        {
            Content::Inline(bytes) => bytes.len() as u64 == u64::from(len),
            Content::Overflow { head: _, total } => total == len,
            Content::Set(_) | Content::OffPage { .. } => len == 0,
        }
    }

    // Adds the value at a place as that of a record, where it has a length that is asked for.
    fn push_numbered(&mut self, number: u32, place: KeptValue, len: u32) -> Result<(), AllocError>
        requires { IsKeptValue (file_in self.old.reading) place }
        ensures reading { OnOk result (self.new.reading ≡ self.old.reading) }
        ensures pairs { OnOk result (self.new.gathered.pairs ≡ self.old.gathered.pairs
            ++ map loose_pair (filter (has_length len) ((number, value_at (file_in self.old.reading) place) ∷ []))) }
    {
        if len != 0 && !self.has_len(place, len) {
            return Ok(());
        }
        self.push_place(PlacedKey::Number(number), place)
    }

    // Adds the record at a place of a page, where so many come before the page, if it has a number and a length that is asked for.
    fn push_record(&mut self, start: u32, place: KeptValue, len: u32) -> Result<(), AllocError>
        requires { IsKeptValue (file_in self.old.reading) place }
        ensures reading { OnOk result (self.new.reading ≡ self.old.reading) }
        ensures pairs { OnOk result (self.new.gathered.pairs ≡ self.old.gathered.pairs
            ++ map loose_pair (filter (is_record_of len) (numbered_at (file_in self.old.reading) start place ∷ []))) }
    {
        let number = u64::from(start) + u64::from(place.index) + 1;
        match u32::try_from(number) {
            Ok(number) => self.push_numbered(number, place, len),
            Err(_) => Ok(()),
        }
    }

    // Adds what kept pairs give.
    #[tactic(auto, using(crate::proofs::GatheredLemmas::in_hand, crate::proofs::LeftLemmas::pairs_rest, crate::proofs::LeftLemmas::first_pair))]
    fn push_kept(&mut self, pairs: &[KeptPair]) -> Result<(), AllocError>
        requires { All (IsKeptPair (file_in self.old.reading)) pairs.now }
        ensures reading { OnOk result (self.new.reading ≡ self.old.reading) }
        ensures pairs { OnOk result (self.new.gathered.pairs ≡ self.old.gathered.pairs
            ++ map stored_pair (flat_map (given_live (file_in self.old.reading)) pairs.now)) }
    {
        for pair in Places::over(pairs) {
            self.push_pair(pair)?;
        }
        Ok(())
    }

    // Adds the records at places of a page.
    #[tactic(auto, using(crate::proofs::GatheredLemmas::in_hand, crate::proofs::LeftLemmas::values_rest, crate::proofs::LeftLemmas::first_value))]
    fn push_records(&mut self, start: u32, places: &[KeptValue], len: u32) -> Result<(), AllocError>
        requires { All (IsKeptValue (file_in self.old.reading)) places.now }
        ensures reading { OnOk result (self.new.reading ≡ self.old.reading) }
        ensures pairs { OnOk result (self.new.gathered.pairs ≡ self.old.gathered.pairs
            ++ map loose_pair (filter (is_record_of len) (map (numbered_at (file_in self.old.reading) start) places.now))) }
    {
        for place in Places::over(places) {
            self.push_record(start, place, len)?;
        }
        Ok(())
    }

    /// Adds the stored pairs of a page, in the order of slot and place in a set. An error means that memory ran out.
    pub fn push_pairs_on(&mut self, page: u32) -> Result<(), AllocError>
        requires { page < (file_in self.old.reading).count }
        ensures reading { OnOk result (self.new.reading ≡ self.old.reading) }
        ensures pairs { OnOk result (self.new.gathered.pairs ≡ self.old.gathered.pairs ++ map stored_pair (stored_on (file_in self.old.reading) page)) }
    {
        let pairs = self.salvaged.pairs_at(page);
        self.push_kept(pairs)
    }

    /// Adds the loose records of a page, in the order of slot, each with its number, where `start` records come before the page: those with a number
    /// below 2^32 and, unless `len` is 0, of `len` bytes. An error means that memory ran out.
    pub fn push_records_on(&mut self, page: u32, start: u32, len: u32) -> Result<(), AllocError>
        requires { page < (file_in self.old.reading).count }
        ensures reading { OnOk result (self.new.reading ≡ self.old.reading) }
        ensures pairs { OnOk result (self.new.gathered.pairs ≡ self.old.gathered.pairs
            ++ map loose_pair (filter (is_record_of len) (map (numbered_at (file_in self.old.reading) start) (untaken_on (file_in self.old.reading) page)))) }
    {
        let places = self.salvaged.records_at(page);
        self.push_records(start, places, len)
    }

    /// The pairs.
    pub fn into_pairs(self) -> TextPairs
        ensures { result ≡ self.entry.gathered.pairs }
    {
        self.pairs.into_pairs()
    }
}

// Nothing yet of an image, with room for so many pairs.
fn nothing_yet<'s, 'a>(
    alloc: Global,
    salvaged: &'s Salvaged<'a>,
    pairs: usize,
) -> Result<Gatherer<'s, 'a>, AllocError>
    ensures reading { IfOk result (λ it. it.reading ≡ salvaged.now) }
    ensures pairs { IfOk result (λ it. it.gathered.pairs ≡ []) }
{
    Ok(Gatherer {
        salvaged,
        pairs: Gathered::new(alloc, pairs)?,
        sets: BTreeMap::new(alloc),
        room: Vec::new(alloc),
        on: OnPages::none(),
    })
}

impl<'s, 'a> Gatherer<'s, 'a> {
    /// No pairs yet, of an image. An error means that memory ran out.
    pub fn of(alloc: Global, salvaged: &'s Salvaged<'a>) -> Result<Gatherer<'s, 'a>, AllocError>
        ensures reading { IfOk result (λ it. it.reading ≡ salvaged.now) }
        ensures pairs { IfOk result (λ it. it.gathered.pairs ≡ []) }
    {
        nothing_yet(alloc, salvaged, 0)
    }
}

// How many data a pair has, a set on its page counted as one.
fn data_count(salvaged: &Salvaged<'_>, pair: KeptPair) -> usize
    requires { IsKeptPair (file_in salvaged.now) pair }
{
    match pair.place {
        DataPlace::Here => 1,
        DataPlace::Set { leaf } => salvaged.places_in(leaf).len(),
    }
}

// About how many pairs there are. No datum is looked at.
#[tactic(auto, using(crate::proofs::KeptLemmas::all_pairs, crate::proofs::LeftLemmas::pairs_rest, crate::proofs::LeftLemmas::first_pair))]
fn pair_count(salvaged: &Salvaged<'_>) -> usize {
    let mut count: usize = 0;
    for pair in Places::over(salvaged.kept_pairs()) {
        count = count.saturating_add(data_count(salvaged, pair));
    }
    count
}

/// The stored pairs of an image as pairs of a section, whose lines are 0. An error means that memory ran out.
#[tactic(auto, using(crate::proofs::KeptLemmas::all_pairs, crate::proofs::StoredLemmas::stored_is, crate::proofs::LeftLemmas::pairs_rest, crate::proofs::LeftLemmas::first_pair))]
pub fn stored_pairs(alloc: Global, salvaged: &Salvaged<'_>) -> Result<TextPairs, AllocError>
    ensures { IfOk result (λ pairs. pairs ≡ map stored_pair (stored (file_in salvaged.now))) }
{
    let mut all = nothing_yet(alloc, salvaged, pair_count(salvaged))?;
    for pair in Places::over(salvaged.kept_pairs()) {
        all.push_pair(pair)?;
    }
    Ok(all.into_pairs())
}

/// The loose records of an image as pairs of a section, numbered from 1, whose lines are 0. An error means that memory ran out.
#[tactic(auto, using(crate::proofs::LooseLemmas::loose_is, crate::proofs::KeptLemmas::all_loose, crate::proofs::LeftLemmas::values_rest, crate::proofs::LeftLemmas::first_value))]
pub fn loose_pairs(alloc: Global, salvaged: &Salvaged<'_>) -> Result<TextPairs, AllocError>
    requires { length salvaged.now.image ≤ 2 ^ 30 }
    ensures { IfOk result (λ pairs. pairs ≡ loose_pairs (loose (file_in salvaged.now))) }
{
    let places = salvaged.loose_places();
    let mut all = nothing_yet(alloc, salvaged, places.len())?;
    let mut number = 0;
    for place in Places::over(places) {
        number += 1;
        all.push_place(PlacedKey::Number(number), place)?;
    }
    Ok(all.into_pairs())
}
