//! What is known of a device, and which questions about it wait or are in flight.
use crate::object::{Object, Objects, counts_for, names_it, refusal_for};
use crate::order::{Action, NotDone, Order};
use crate::orders::SettledOrder;
use crate::poll::Poll;
use crate::question::{
    MOST_QUESTIONS, PendingQuestion, Property, Question, STATE_PROPERTIES, WALK_PROPERTIES,
    class_for,
};
use arrayvec::ArrayVec;
use oca_model::{Answer, Member, Value};
use oca_net::End;
use oca_panel::{Panel, Trouble, Walk, answer_of};
use oca_types::{Class, Handle, NoMemory, Ono};
use std::alloc::Global;
use std::collections::VecDeque;

/// The members that a block listed in a walk.
#[derive(Drop)]
struct Listed {
    /// The place of the block in the list of objects.
    place: usize,
    /// The members that the block listed, in order.
    members: Vec<Member>,
}

/// If a question waits for its answer and the device is silent for longer, in milliseconds, the device may be another
/// one when it answers again.
const LONGEST_SILENCE_MS: u64 = 500;

/// What is known of a device, and which questions are asked of it.
///
/// A *walk* finds the objects: it begins at the root, asks each block for its members, and asks of each object what
/// does not change. A walk ends once all its questions were answered, and stays ended until another walk begins. Then
/// all that changes is asked once, and values are read again in *rounds* while a page is open. The *place* of an object
/// is its index in the list of objects, counted from 0. A page is *open* for 2,500 ms after it asked for values. Moments
/// are in milliseconds of the *program's clock*, which never goes back.
#[derive(Drop)]
pub struct Inventory {
    alloc: Global,
    objects: Objects,
    walk: Walk,
    waiting: VecDeque<Question>,
    pending: ArrayVec<PendingQuestion, MOST_QUESTIONS>,
    lists: Vec<Listed>,
    poll: Poll,
    epoch: u64,
    walked: bool,
    is_stale: bool,
    /// Whether the link was lost since questions were submitted last.
    is_lost: bool,
    /// What was asked before this moment may have been answered by another device.
    doubted_until: u64,
    /// Whether all roles, labels and names of positions must be read again.
    rereads_names: bool,
    /// Whether the last question belonged to a round.
    was_of_round: bool,
}

impl Inventory {
    ghost use Rattle.std.specs.Prelude.{◌≡◌, slice_get, true};
    ghost use Rattle.oca_web.specs.Known.{KeepsQuestion};
    ghost use Rattle.oca_web.specs.Views.{TakesAnswerOf, TakesAnswers};

    /// Returns an inventory of a device of which nothing is known, with a walk that begins at the root. `now` is the
    /// present moment. The only refusal is `NoMemory`.
    pub fn new(alloc: Global, now: u64) -> Result<Inventory, NoMemory> {
        let mut inventory = Inventory {
            alloc,
            objects: Objects::new(alloc),
            walk: Walk::new(alloc)?,
            waiting: VecDeque::new(alloc),
            pending: ArrayVec::new(),
            lists: Vec::new(alloc),
            poll: Poll::new(now),
            epoch: 0,
            walked: false,
            is_stale: false,
            is_lost: false,
            doubted_until: 0,
            rereads_names: false,
            was_of_round: false,
        };
        inventory.begin_anew()?;
        Ok(inventory)
    }

    /// Forgets all objects, and begins another walk at the root. Questions in flight stay in flight, but their answers
    /// are then not used. The only refusal is `NoMemory`: then no object is known, and another walk must begin
    /// ([`is_stale`](Inventory::is_stale)).
    pub fn begin_anew(&mut self) -> Result<(), NoMemory> {
        self.objects.clear();
        self.waiting.clear();
        self.lists.clear();
        self.poll.end_round();
        self.walked = false;
        self.is_stale = true;
        self.is_lost = false;
        self.epoch = self.epoch.saturating_add(1);
        self.walk = Walk::new(self.alloc)?;
        self.add_next(Some(Class::Block))?;
        self.is_stale = false;
        Ok(())
    }

    /// Adds the object at the next place of the walk, unless it was visited before, and the questions of a walk about it.
    fn add_next(&mut self, class: Option<Class>) -> Result<(), NoMemory> {
        let Some((at, false)) = self.walk.take_place()? else {
            return Ok(());
        };
        let place = self.objects.as_slice().len();
        self.objects.add(Object::new(at.ono, at.container, class))?;
        for property in WALK_PROPERTIES {
            self.ask_later(place, class, property)?;
        }
        Ok(())
    }

    /// Returns the question for a property of the object at this place, in the present walk.
    fn question(&self, place: usize, property: Property) -> Question {
        Question {
            place,
            property,
            epoch: self.epoch,
        }
    }

    /// Asks for a property of an object after all that waits, if objects of its class have it.
    fn ask_later(
        &mut self,
        place: usize,
        class: Option<Class>,
        property: Property,
    ) -> Result<(), NoMemory> {
        if !property.is_of(class) {
            return Ok(());
        }
        let question = self.question(place, property);
        self.waiting.push_back(question).map_err(|_| NoMemory)
    }

    /// Asks for these properties of all objects, after all that waits.
    fn ask_of_all(&mut self, properties: &[Property]) -> Result<(), NoMemory> {
        for property in properties {
            for place in 0..self.objects.as_slice().len() {
                if let Some((_, class)) = self.target_of(place) {
                    self.ask_later(place, class, *property)?;
                }
            }
        }
        Ok(())
    }

    /// Returns the objects that were found so far, in the order in which they were found, a block before its members.
    /// At first this is the root alone, which has the number 100.
    pub fn objects(&self) -> &Objects
        ensures { result.now ≡ self.now.objects }
    {
        &self.objects
    }

    /// Returns the number of the present walk: 1 for the first, and one more for each walk that begins.
    pub fn epoch(&self) -> u64 {
        self.epoch
    }

    /// Returns whether the walk ended: all its questions were answered.
    pub fn is_walked(&self) -> bool {
        self.walked
    }

    /// Returns whether an answer showed that the device is another one, or has other objects, than in the walk, so that
    /// another walk must begin: a block lists other members, an object has another role or other names of positions, it
    /// can be locked now or no longer, or the device answers a question about a known object with BadONo, with
    /// BadMethod or with an answer of another class.
    pub fn is_stale(&self) -> bool
        ensures { result ≡ self.now.is_stale }
    {
        self.is_stale
    }

    /// Notes that the link was lost: no question is in flight any longer, and all is asked again, since the device may be
    /// another one.
    pub(crate) fn note_lost(&mut self)
        ensures lost { self.new.is_lost ≡ true }
        ensures objects { self.new.objects ≡ self.old.objects }
    {
        self.pending.clear();
        self.is_lost = true;
    }

    /// Whether the walk goes on, or questions about all objects wait after it.
    pub(crate) fn reads_all(&self) -> bool {
        !self.waiting.is_empty() || !self.walked
    }

    /// Begins another walk if the device is another one, or the link was lost in a walk. If it was lost after the walk,
    /// what is known stays, but for this panel's locks, and is confirmed once the device says it again.
    pub(crate) fn begin_again(&mut self) -> Result<(), NoMemory> {
        if self.is_stale || (self.is_lost && !self.walked) {
            return self.begin_anew();
        }
        if self.is_lost {
            self.is_lost = false;
            self.objects.note_lost();
            self.waiting.clear();
            self.ask_of_all(&WALK_PROPERTIES)?;
            self.ask_of_all(&STATE_PROPERTIES)?;
        }
        Ok(())
    }

    /// Returns the moment at which a question was submitted, if its answer can still confirm a role or names of positions.
    fn confirmed(&self, moment: u64) -> Option<u64> {
        (moment >= self.doubted_until).then_some(moment)
    }

    /// Returns the number of questions in flight: they were submitted, and their answers were not taken yet.
    pub fn in_flight(&self) -> usize {
        self.pending.len()
    }

    /// Notes that a page asked for values, which shows so many objects from this place on.
    pub(crate) fn open(&mut self, now: u64, first: usize, visible: usize) {
        self.poll.open(now, first, visible);
    }

    /// Returns when the next round may begin, as [`View::next_moment`](crate::View::next_moment) does.
    pub(crate) fn next_moment(&self, now: u64) -> Option<u64> {
        if self.walked {
            self.poll.next_moment(now)
        } else {
            None
        }
    }

    /// Returns the number and the class of the object at this place.
    pub(crate) fn target_of(&self, place: usize) -> Option<(Ono, Option<Class>)> {
        let object = self.objects.as_slice().get(place)?;
        Some((object.ono, object.class))
    }

    /// Returns the class of the object with this number: `None` if no such object is known, `Some(None)` if this profile
    /// does not have its class.
    pub(crate) fn class_of(&self, ono: Ono) -> Option<Option<Class>> {
        let (_, object) = self.objects.find(ono)?;
        Some(object.class)
    }

    /// Notes that a question was submitted under this handle, at this moment or later.
    pub(crate) fn note_asked(&mut self, handle: Handle, question: Question, moment: u64)
        ensures { KeepsQuestion handle question moment self.old.pending.items self.new.pending.items }
    {
        let _ = self.pending.try_push(PendingQuestion {
            handle,
            question,
            moment,
        });
    }

    /// Returns the lowest handle of a question in flight, and `next` if none is in flight.
    pub(crate) fn lowest_handle(&self, next: u32) -> u32 {
        let handles = self.pending.as_slice().iter().map(|asked| asked.handle.0);
        handles.min().unwrap_or(next)
    }

    /// Notes that the device was last heard at this moment. After a long silence in which a question waited for its
    /// answer, the device may be another one: then no question that was submitted before now confirms a role or a name
    /// of a position, and all of them are read again, with the labels, once the walk is over.
    pub(crate) fn note_silence(&mut self, heard: u64, now: u64) {
        let is_long = |since: u64| now.saturating_sub(since) > LONGEST_SILENCE_MS;
        let mut pending = self.pending.as_slice().iter();
        if is_long(heard)
            && self.doubted_until <= heard
            && pending.any(|asked| is_long(asked.moment))
        {
            self.objects.doubt_names();
            self.doubted_until = now;
            self.rereads_names = true;
        }
    }

    /// Takes the answers that came, and notes what they say. The walk is over once no question of it waits or is in
    /// flight.
    #[tactic(auto, using(crate::proofs::StepLemmas::answer_rules))]
    pub(crate) fn take_answers<E: End>(&mut self, panel: &mut Panel<E>) -> Result<(), NoMemory>
        ensures { TakesAnswers panel.old panel.new }
    {
        let mut at = 0usize;
        for _question in 0..self.pending.len() {
            if !self.take_answer(panel, at)? {
                at = at.saturating_add(1);
            }
        }
        if !self.walked && self.waiting.is_empty() && self.pending.is_empty() {
            self.walked = true;
            self.ask_of_all(&STATE_PROPERTIES)?;
        }
        Ok(())
    }

    /// Takes the answer to the question at this index of those in flight, and notes what it says. Returns `false` if it
    /// did not come yet, or there is no such question.
    #[tactic(auto, using(crate::proofs::StepLemmas::answer_rules))]
    fn take_answer<E: End>(&mut self, panel: &mut Panel<E>, at: usize) -> Result<bool, NoMemory>
        ensures panel { TakesAnswers panel.old panel.new }
        ensures takes { TakesAnswerOf (slice_get self.old.pending.items at) panel.old panel.new }
    {
        let Some(asked) = self.pending.as_slice().get(at).copied() else {
            return Ok(false);
        };
        let Some(outcome) = panel.try_finish(asked.handle) else {
            return Ok(false);
        };
        let class = match self.target_of(asked.question.place) {
            Some((_, class)) => class_for(class),
            None => Class::Block,
        };
        let answer = answer_of(class, asked.question.property.method(), &outcome);
        let _ = self.pending.pop_at(at);
        self.learn(&asked, answer)?;
        Ok(true)
    }

    /// Returns the question that is submitted next. Once the walk is over, questions that wait and questions of a round
    /// take turns, so that what pages show is read also while the names of many objects wait.
    pub(crate) fn next_question(&mut self, now: u64) -> Option<Question> {
        self.was_of_round = self.walked && !self.was_of_round;
        if self.was_of_round
            && let Some(question) = self.read_again(now)
        {
            return Some(question);
        }
        if self.waiting.is_empty() && self.walked && self.rereads_names {
            self.rereads_names = false;
            let _ = self.ask_of_all(&[Property::Role, Property::Label, Property::Names]);
        }
        match self.waiting.pop_front() {
            None if self.walked => self.read_again(now),
            question => question,
        }
    }

    /// Returns the question to ask at `now` so that the values stay up to date. Its object then counts as read again at
    /// `now`. The result is `None` if no page is open, or nothing is due in this round.
    pub fn read_again(&mut self, now: u64) -> Option<Question> {
        let (place, property) = self.poll.next(now, self.objects.as_slice())?;
        self.objects.note_read_again(place, now);
        Some(self.question(place, property))
    }

    /// Asks this question before all that wait.
    pub(crate) fn ask_again(&mut self, question: Question) -> Result<(), NoMemory> {
        self.waiting.push_front(question).map_err(|_| NoMemory)
    }

    /// Returns the questions that are still to be submitted before this order: for what its page showed, unless the
    /// device confirmed it for the order ([`counts_for`]), or a question in flight asks for it.
    pub(crate) fn unconfirmed_for(&self, order: &Order, now: u64) -> ArrayVec<Question, 3> {
        let mut unconfirmed = ArrayVec::new();
        let Some((place, object)) = self.objects.find(order.ono) else {
            return unconfirmed;
        };
        let block = self.objects.find(object.container);
        let block = block.map(|(place, block)| (place, Property::Role, block.role_read));
        let names = match order.action {
            Action::Set(Value::Switch(_)) => Some((place, Property::Names, object.names_read)),
            _ => None,
        };
        for needed in [
            Some((place, Property::Role, object.role_read)),
            block,
            names,
        ] {
            let Some((place, property, read)) = needed else {
                continue;
            };
            let question = self.question(place, property);
            let is_asked = self.pending.iter().any(|asked| {
                asked.question == question && counts_for(order, self.confirmed(asked.moment), now)
            });
            if !is_asked && !counts_for(order, read, now) {
                let _ = unconfirmed.try_push(question);
            }
        }
        unconfirmed
    }

    /// Returns why this order must not be sent any more, if so: its last moment has passed, its object is not the one
    /// that its page showed, or the device refused to say the role of the object or of its block.
    pub(crate) fn reason_to_end(&self, order: &Order, now: u64) -> Option<NotDone> {
        if order.last < now {
            return Some(NotDone::TooLate);
        }
        if self.is_stale || !names_it(self.objects.as_slice(), order) {
            return Some(NotDone::Changed);
        }
        let (_, object) = self.objects.find(order.ono)?;
        if let Some(reason) = refusal_for(order, object) {
            return Some(reason);
        }
        let (_, block) = self.objects.find(object.container)?;
        refusal_for(order, block)
    }

    /// Notes the answer to a question, or the reason why there is none. If the walk of the question is not the present
    /// one, nothing is changed. An answer of another kind than the question asks for is ignored. The only refusal is
    /// `NoMemory`; members of a block may then be missing.
    fn learn(
        &mut self,
        asked: &PendingQuestion,
        answer: Result<Answer, Trouble>,
    ) -> Result<(), NoMemory> {
        let (question, moment) = (asked.question, asked.moment);
        let Question {
            place,
            property,
            epoch,
        } = question;
        if epoch != self.epoch {
            return Ok(());
        }
        match (property, answer) {
            (_, Err(trouble)) => self.learn_trouble(place, property, trouble, moment),
            (Property::Members, Ok(Answer::Members(members))) => {
                return self.learn_members(place, members.as_slice());
            }
            (_, Ok(answer)) => {
                let object = self.objects.as_slice().get(place);
                if self.walked && object.is_some_and(|it| it.differs_from(property, &answer)) {
                    self.is_stale = true;
                } else {
                    let read = self.confirmed(moment);
                    self.objects.learn(question, answer, moment, read);
                }
            }
        }
        Ok(())
    }

    /// Notes why a property could not be read: a different controller locks the object, the members of a block can't be
    /// listed, or the device has other objects by now.
    fn learn_trouble(&mut self, place: usize, property: Property, trouble: Trouble, moment: u64) {
        if matches!(property, Property::Role | Property::Names) {
            self.objects.note_refused(place, trouble, moment);
        }
        // BadONo, BadMethod, or an answer of another class: the device has other objects by now.
        let is_other = matches!(trouble, Trouble::Refused(5 | 11) | Trouble::Unreadable);
        if self.walked && is_other {
            self.is_stale = true;
        } else if let Some(state) = self.objects.state(place) {
            let state = state.with_trouble(property, trouble);
            self.objects.set_state(place, state);
        }
    }

    /// Notes the members of a block: a walk visits them, and after it they are compared with those that the walk found.
    fn learn_members(&mut self, place: usize, members: &[Member]) -> Result<(), NoMemory> {
        let Some((container, _)) = self.target_of(place) else {
            return Ok(());
        };
        if self.walked {
            let is_same = |one: &Listed| one.place == place && one.members.as_slice() == members;
            self.is_stale = self.is_stale || !self.lists.iter().any(is_same);
            if let Some(state) = self.objects.state(place) {
                self.objects.set_state(place, state.readable());
            }
            return Ok(());
        }
        let copy = Vec::from_slice(self.alloc, members).map_err(|_| NoMemory)?;
        let listed = Listed {
            place,
            members: copy,
        };
        self.lists.push(listed).map_err(|_| NoMemory)?;
        let mut numbers: ArrayVec<u32, 181> = ArrayVec::new();
        for member in members {
            let _ = numbers.try_push(member.ono.0);
        }
        self.walk.put_members(container, numbers.as_slice())?;
        for member in members {
            self.add_next(member.class)?;
        }
        Ok(())
    }

    /// Lets no answer to a question in flight for this property count.
    fn ignore_answers(&mut self, place: usize, property: Property) {
        for asked in self.pending.as_mut_slice() {
            if asked.question.place == place && asked.question.property == property {
                asked.question.epoch = 0;
            }
        }
    }

    /// Notes how orders ended: whose locks are on their objects, and what these are set to. Then a question is put
    /// before all that wait: for the object's label after an order for a label, otherwise for its value, if it has one.
    /// An answer to the same question that is still in flight is not used, since it can be older than the order. The
    /// only refusal is `NoMemory`: then questions are missing.
    pub(crate) fn learn_orders(&mut self, settled: &[SettledOrder]) -> Result<(), NoMemory> {
        for one in settled {
            let order = one.sent.order;
            let property = match order.action {
                Action::Rename(_) => Property::Label,
                Action::Set(_) | Action::Lock | Action::Unlock => Property::Value,
            };
            let Some((place, object)) = self.objects.find(order.ono) else {
                continue;
            };
            let (state, class) = (object.state, object.class);
            self.objects
                .set_state(place, state.after_order(order, one.done));
            self.ignore_answers(place, property);
            if property.is_of(class) {
                let question = self.question(place, property);
                self.ask_again(question)?;
            }
        }
        Ok(())
    }
}
