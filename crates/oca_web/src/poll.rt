//! Which object is read again next.
use crate::object::Object;
use crate::question::Property;
use arrayvec::ArrayVec;
use oca_types::Class;

/// A round begins so many milliseconds after the one before it, at the earliest.
const ROUND_MS: u64 = 25;

/// An object that a page shows is read again after so many milliseconds, at the earliest.
const SHOWN_MS: u64 = 100;

/// A block that a page shows is asked again after so many milliseconds, at the earliest: what it has changes seldom.
const LISTED_MS: u64 = 500;

/// An object that no page shows is read again after so many milliseconds, at the earliest.
const HIDDEN_MS: u64 = 5000;

/// A round that took longer has as many objects that no page shows as a quarter of one of this length, in milliseconds:
/// what is shown goes before them.
const LONGEST_ROUND_MS: u64 = 1000;

/// A page counts as open for so many milliseconds after it asked for values.
const OPEN_MS: u64 = 2500;

/// The most objects that a page can say it shows.
const MOST_VISIBLE: usize = 512;

/// The greatest number of ranges that are stored.
const MOST_RANGES: usize = 128;

/// A range of objects that a page showed when it asked for values. A page can show several ranges.
#[derive(Clone, Copy, PartialEq, Eq, Default)]
pub struct ShownRange {
    /// The place of the first object that the page shows, counted from 0.
    pub first: usize,
    /// The number of objects that the page shows.
    pub count: usize,
    /// The moment until which the page counts as open, in milliseconds of the program's clock.
    pub until: u64,
}

impl ShownRange {
    /// Whether the page still counts as open.
    fn is_open(&self, now: u64) -> bool {
        now < self.until
    }
}

/// Which object is read again next, while a page is open. Objects are read again in *rounds*. In each round
/// the objects that pages show come first, and then a part of all others. The *place* of an object is its index in the
/// list of objects, counted from 0.
#[derive(Drop)]
pub struct Poll {
    ranges: ArrayVec<ShownRange, MOST_RANGES>,
    /// The moment when the round began.
    begun: u64,
    /// The next step of the round.
    step: usize,
    /// The number of the first steps, which are for objects that pages show.
    shown_steps: usize,
    /// The number of all steps.
    steps: usize,
    /// The place of the object at the next step after those.
    next_hidden: usize,
}

impl Poll {
    /// Returns a poll without a round and without an open page. The first round begins 25 ms after `now` at the
    /// earliest.
    pub fn new(now: u64) -> Poll {
        Poll {
            ranges: ArrayVec::new(),
            begun: now,
            step: 0,
            shown_steps: 0,
            steps: 0,
            next_hidden: 0,
        }
    }

    /// Notes that a page asked for values at the moment `now`, which shows `visible` objects (a number above 512 counts
    /// as 512) from the place `first` on. The page counts as open for 2,500 ms. At most 128 ranges of objects are
    /// stored. A new range replaces an equal range, or else one that is no longer open. If there is neither and 128 are
    /// stored, it replaces the range of the page that asked longest ago.
    pub fn open(&mut self, now: u64, first: usize, visible: usize) {
        let range = ShownRange {
            first,
            count: visible.min(MOST_VISIBLE),
            until: now.saturating_add(OPEN_MS),
        };
        let ranges = self.ranges.as_slice();
        let same = ranges
            .iter()
            .position(|other| other.first == first && other.count == range.count);
        let closed = ranges.iter().position(|other| !other.is_open(now));
        let first_until = ranges.iter().map(|other| other.until).min();
        let oldest = ranges.iter().position(|other| self.ranges.is_full()
            && Some(other.until) == first_until);
        let at = same.or(closed).or(oldest).unwrap_or(ranges.len());
        if at < self.ranges.len() {
            self.ranges.as_mut_slice()[at] = range;
        } else {
            let _ = self.ranges.try_push(range);
        }
    }

    /// Returns whether a page is open at the moment `now`: it asked for values less than 2,500 ms before.
    pub fn is_open(&self, now: u64) -> bool {
        self.ranges.iter().any(|range| range.is_open(now))
    }

    /// Whether an open page shows the object at this place.
    fn shows(&self, now: u64, place: usize) -> bool {
        self.ranges.iter().any(|range| {
            range.is_open(now) && range.first <= place && place - range.first < range.count
        })
    }

    /// Ends the present round, if there is one. The next begins 25 ms after its beginning at the earliest.
    pub fn end_round(&mut self) {
        self.step = self.steps;
    }

    /// Returns the moment from which the next round may begin, which can already be past. The result is `None` if no
    /// page is open at `now`, or a round has not ended; that round goes on when an answer comes.
    pub fn next_moment(&self, now: u64) -> Option<u64> {
        if self.is_open(now) && self.step >= self.steps {
            Some(self.begun.saturating_add(ROUND_MS))
        } else {
            None
        }
    }

    /// Begins a round through so many objects: those that the open pages show, those that two of them show counted
    /// twice, and so many of all objects that each is looked at once in the pause of what no page shows.
    fn begin_round(&mut self, now: u64, objects: usize) {
        let passed = now.saturating_sub(self.begun);
        let time = if passed < LONGEST_ROUND_MS {
            passed
        } else {
            LONGEST_ROUND_MS / 4
        };
        let hidden = (objects as u64).saturating_mul(time) / HIDDEN_MS;
        let mut shown = 0usize;
        for range in self.ranges.as_slice() {
            if range.is_open(now) {
                shown = shown.saturating_add(range.count);
            }
        }
        self.begun = now;
        self.step = 0;
        self.shown_steps = shown;
        self.steps = shown.saturating_add(hidden.saturating_add(1) as usize);
    }

    /// Returns the object to read next, by its place, and the property to read of it. If a round is due, it begins. An
    /// object is read again 100 ms after it was read again last if an open page shows it, and 5,000 ms after it
    /// otherwise, at the earliest. The result is `None` if no page is open, or nothing is to be read now.
    pub fn next(&mut self, now: u64, objects: &[Object]) -> Option<(usize, Property)> {
        let is_open = self.is_open(now);
        if is_open && self.step >= self.steps && now >= self.begun.saturating_add(ROUND_MS) {
            self.begin_round(now, objects.len());
        }
        for _ in self.step..self.steps {
            let place = self.place(now);
            if let Some(object) = objects.get(place)
                && let Some(class) = object.class
            {
                let is_shown = self.shows(now, place);
                let pause = match class {
                    _ if !is_shown => HIDDEN_MS,
                    Class::Block => LISTED_MS,
                    _ => SHOWN_MS,
                };
                if is_open && now.saturating_sub(object.last_asked) >= pause {
                    self.go_on(objects.len());
                    return Some((place, property_to_read(class, object)));
                }
                // The hidden object that was read longest ago is not due: the others are not due either.
                if self.step >= self.shown_steps && !is_shown {
                    self.end_round();
                    return None;
                }
            }
            self.go_on(objects.len());
        }
        None
    }

    /// The place of the object at this step of the round: first those that pages show, then some of all.
    fn place(&self, now: u64) -> usize {
        let mut behind = self.step;
        if behind >= self.shown_steps {
            return self.next_hidden;
        }
        for range in self.ranges.as_slice() {
            if range.is_open(now) {
                if behind < range.count {
                    return range.first.saturating_add(behind);
                }
                behind -= range.count;
            }
        }
        self.next_hidden
    }

    /// Goes on to the next step of the round through so many objects.
    fn go_on(&mut self, objects: usize) {
        if self.step >= self.shown_steps {
            let next = self.next_hidden.saturating_add(1);
            self.next_hidden = if next < objects { next } else { 0 };
        }
        self.step = self.step.saturating_add(1);
    }
}

/// What is read next of an object of this class: its role where the device may be another one. Else it goes by how
/// often the object was read: of a block its role every other time, of the others every eighth time, and of a switch
/// the names of its positions too.
fn property_to_read(class: Class, object: &Object) -> Property {
    let at = object.readings % 32;
    match class {
        _ if object.may_be_other => Property::Role,
        Class::Block if at % 4 == 0 => Property::Members,
        Class::Block if at % 8 == 2 => Property::Label,
        Class::Block if at % 8 == 6 => Property::Enabled,
        Class::Block => Property::Role,
        _ if at % 8 == 4 => Property::Role,
        Class::Switch if at % 8 == 6 => Property::Names,
        Class::Switch if at == 24 => Property::Flags,
        _ if at == 8 => Property::Enabled,
        _ if at == 16 => Property::Label,
        _ => Property::Value,
    }
}
