// Lists in segments: a list that grows without moving what it has, in vectors of one length; only the last one may be
// shorter.
ghost use Rattle.std.specs.Prelude.{◌≡◌, ℕ, take, ◌+◌, ◌*◌, ◌/◌, ◌^◌, ◌<◌, ◌≤◌, ◌==◌, List, [], ◌∷◌, ◌++◌, length, replicate, Some, IfOk};
ghost use Rattle.std.specs.Prelude.{OnOk, OnErr, vec_len, slice_set, slice_get, slice_index_or};
ghost use Rattle.dob_lists.specs.Segmented.{joined, AreSegments};
ghost use Rattle.dob_lists.specs.SegmentsLeft.{rest_of};

use crate::segment_length::SegmentLength;
use dob_pieces::Memory;
use std::alloc::Global;
use std::marker::Model;
use std::ops::{Index, IndexMut};

/// The greatest number of items: more than any memory holds, so that numbers of items always fit.
pub const MAX_ITEMS: u64 = 1 << 56;

/// A list of items in segments; all except the last have one length.
#[derive(Drop)]
pub struct Segments<T> {
    segments: Vec<Vec<T>>,
    segment_length: SegmentLength,
    count: u64,
    alloc: Global,
}

impl<T> Model for Segments<T> {
    ghost use Rattle.std.specs.Prelude.{◌≡◌, ◌^◌, ◌≤◌, List, length};
    ghost use Rattle.std.specs.Coded.{coded_list};
    ghost use Rattle.dob_lists.specs.Segmented.{joined, AreSegments};

    ghost Value = { List T };

    ghost coded = { coded_list T.code };

    ghost view = { λ list. joined list.segments.items };

    ghost invariant = { λ list. (list.count ≤ 2 ^ 56) × (list.count ≡ length (joined list.segments.items))
        × AreSegments list.segment_length.items list.segments.items };
}

impl<T> Segments<T> {
    /// An empty list in segments of that length. It takes no memory.
    pub fn new(alloc: Global, segment_length: SegmentLength) -> Segments<T>
        ensures { result ≡ [] }
    {
        Segments {
            segments: Vec::new(alloc),
            segment_length,
            count: 0,
            alloc,
        }
    }

    /// How many items it has.
    pub fn len(&self) -> u64
        ensures count { result ≡ length self.now }
        ensures bound { result ≤ 2 ^ 56 }
    {
        self.count
    }

    /// How many items each segment but the last has.
    pub fn segment_length(&self) -> SegmentLength {
        self.segment_length
    }

    /// Whether it has no item.
    pub fn is_empty(&self) -> bool
        ensures { result ≡ (length self.now == 0) }
    {
        self.count == 0
    }
}

impl<T: Copy> Segments<T> {
    /// A list of that many items, each the given one, in segments of that length, which are filled as a whole.
    pub fn filled(
        alloc: Global,
        segment_length: SegmentLength,
        count: u64,
        item: T,
    ) -> Result<Segments<T>, Memory>
        ensures { IfOk result (λ list. list ≡ replicate count item) }
    {
        if count > MAX_ITEMS {
            return Err(Memory);
        }
        let (whole, rest) = segment_length.split(count);
        let mut segments = Vec::new(alloc);
        for _number in 0..whole {
            segments.push(copies(alloc, segment_length.items() as usize, item)?)?;
        }
        segments.push(copies(alloc, rest, item)?)?;
        Ok(Segments {
            segments,
            segment_length,
            count,
            alloc,
        })
    }

    /// The item at that place.
    pub fn get(&self, place: u64) -> T
        requires { place < length self.now }
        ensures get { slice_get self.now place ≡ Some result }
        ensures index { result ≡ slice_index_or self.now place result }
    {
        self[place as usize]
    }

    /// Appends the items one after another.
    ///
    /// # Errors
    ///
    /// `Memory`, which may leave the list with the first of them.
    pub fn append(&mut self, items: &[T]) -> Result<(), Memory>
        ensures appended { OnOk result (self.new ≡ self.old ++ items.now) }
        ensures begun { OnErr result ((count : ℕ) × (self.new ≡ self.old ++ take count items.now)) }
    {
        let mut done = 0;
        while done < items.len() {
            done += self.append_some(&items[done..])?;
        }
        Ok(())
    }

    // Appends as many of the items, of which there is one, as the last segment has places for, at once, and says how many.
    //
    // Error: `Memory`, which leaves the list as it was.
    fn append_some(&mut self, items: &[T]) -> Result<usize, Memory>
        requires { 0 < length items.now }
        ensures some { IfOk result (λ count. (0 < count) × (count ≤ length items.now)) }
        ensures appended { IfOk result (λ count. self.new ≡ self.old ++ take count items.now) }
        ensures unchanged { OnErr result (self.new ≡ self.old) }
    {
        let (number, within) = self.segment_length.split(self.count);
        let places = self.segment_length.items() as usize - within;
        let count = items.len().min(places);
        if count as u64 > MAX_ITEMS - self.count {
            return Err(Memory);
        }
        open_segment(self.alloc, &mut self.segments, self.segment_length, number)?;
        let segment = &mut self.segments[number];
        segment.extend_from_slice(&items[..count])?;
        self.count += count as u64;
        Ok(count)
    }

    /// Appends the item.
    ///
    /// # Errors
    ///
    /// `Memory`, which leaves the list as it was.
    pub fn push(&mut self, item: T) -> Result<(), Memory>
        ensures appended { OnOk result (self.new ≡ self.old ++ item ∷ []) }
        ensures unchanged { OnErr result (self.new ≡ self.old) }
    {
        if self.count == MAX_ITEMS {
            return Err(Memory);
        }
        let number = self.segment_length.split(self.count).0;
        open_segment(self.alloc, &mut self.segments, self.segment_length, number)?;
        let segment = &mut self.segments[number];
        segment.push(item)?;
        self.count += 1;
        Ok(())
    }
}

impl<T> Index<usize> for Segments<T> {
    type Output = T;

    ghost can_index = { λ list place. place < length list };

    ghost index_gives = { λ list place item. item ≡ slice_index_or list place item };

    fn index(&self, index: usize) -> &T
        requires { index < length self.now }
        ensures { result.now ≡ slice_index_or self.now index result.now }
    {
        let (number, within) = self.segment_length.split(index as u64);
        &self.segments[number][within]
    }
}

impl<T> IndexMut<usize> for Segments<T> {
    ghost use Rattle.std.specs.Borrow.{Lends, sem};
    ghost use Rattle.dob_lists.specs.contracts.segmented.Segments.{the_row};

    fn index_mut(&mut self, index: usize) -> &mut T
        requires { index < length self.old }
        ensures* writes_back { sem 𝓛 (Lends (the_row T.row) T.row self.entry result (slice_set self.old index)) }
        ensures value { result.now ≡ slice_index_or self.old index result.now }
    {
        let (number, within) = self.segment_length.split(index as u64);
        let segment = &mut self.segments[number];
        &mut segment[within]
    }
}

fn copies<T: Copy>(alloc: Global, count: usize, item: T) -> Result<Vec<T>, Memory>
    ensures { IfOk result (λ segment. segment.items ≡ replicate count item) }
{
    let mut segment = Vec::new(alloc);
    segment.resize(count, item)?;
    Ok(segment)
}

// Opens the segment of that number where the last one is full. The first grows with its items; each further one is
// reserved whole.
fn open_segment<T: Copy>(
    alloc: Global,
    segments: &mut Vec<Vec<T>>,
    segment_length: SegmentLength,
    number: usize,
) -> Result<(), Memory>
    requires whole { AreSegments segment_length.items segments.old.items }
    requires end { number ≡ length (joined segments.old.items) / segment_length.items }
    ensures same { joined segments.new.items ≡ joined segments.old.items }
    ensures whole { AreSegments segment_length.items segments.new.items }
    ensures opened { OnOk result (number < vec_len segments.new) }
{
    if number == segments.len() {
        let reserved = if number == 0 {
            0
        } else {
            segment_length.items() as usize
        };
        segments.push(Vec::with_capacity(alloc, reserved)?)?;
    }
    Ok(())
}

/// The items of a list in segments, from some place on.
#[derive(Drop)]
pub struct SegmentsIter<'a, T> {
    list: &'a Segments<T>,
    next: u64,
}

impl<'a, T> Segments<T> {
    /// The items in their order.
    pub fn iter(&'a self) -> SegmentsIter<'a, T>
        ensures { rest_of result ≡ self.now }
    {
        SegmentsIter {
            list: self,
            next: 0,
        }
    }
}

impl<'a, T: Copy> Iterator for SegmentsIter<'a, T> {
    type Item = T;

    ghost use Rattle.std.specs.Iterator.{YieldsFirst, item_count};

    ghost next_gives = { YieldsFirst rest_of };

    ghost remaining = { item_count rest_of };

    fn next(&mut self) -> Option<T> {
        if self.next >= self.list.len() {
            return None;
        }
        let item = self.list.get(self.next);
        self.next += 1;
        Some(item)
    }
}
