//! The body of a request that orders something.
ghost use Rattle.std.specs.Prelude.{◌≡◌, IfOk, option_and_then};
ghost use Rattle.serde_json.specs.Find.{as_str, get};
ghost use Rattle.serde_json.specs.View.{items_view, view};
ghost use Rattle.oca_web.specs.Bodies.{AreOrdersIn, AreOrdersOf, AreWanted, IsActionIn, IsGivenAs, IsWanted, last_in};
ghost use Rattle.oca_web.specs.Labels.{label_bytes};

use crate::order::{Action, Identity, Label, NewOrder};
use crate::view::View;
use http::StatusCode;
use itoa::Buffer;
use oca_types::Ono;
use serde_json::Value;
use std::alloc::Global;

/// The most orders in one body.
const MOST_ORDERS: usize = 64;

/// What is wrong with a body or an order.
#[derive(Clone, Copy, PartialEq, Eq)]
pub enum BodyFault {
    /// The body or an order does not have the form.
    Form,
    /// The body names another run of the program.
    Run,
    /// An order's object is not known.
    Object,
    /// An order's word is no value of its object, or its label is too long or has a control character.
    Value,
    /// Memory was refused for the orders.
    Memory,
}

impl BodyFault {
    ghost use Rattle.std.specs.Prelude.{◌≢◌};

    /// Returns the HTTP status of the answer: 400, 409, 404, 422 or 503.
    pub fn status(self) -> StatusCode
        ensures { result ≢ 202 }
    {
        match self {
            BodyFault::Form => StatusCode::BAD_REQUEST,
            BodyFault::Run => StatusCode::CONFLICT,
            BodyFault::Object => StatusCode::NOT_FOUND,
            BodyFault::Value => StatusCode::UNPROCESSABLE_ENTITY,
            BodyFault::Memory => StatusCode::SERVICE_UNAVAILABLE,
        }
    }
}

/// Why the orders of a request are refused. None of them is added.
#[derive(Clone, Copy)]
pub struct Refusal {
    /// What is wrong.
    pub fault: BodyFault,
    /// The index of the order that is the reason, counted from 0, and `None` if it is the whole body.
    pub at: Option<usize>,
}

impl From<BodyFault> for Refusal {
    /// A refusal of the whole body.
    fn from(fault: BodyFault) -> Refusal {
        Refusal { fault, at: None }
    }
}

/// What a body orders.
#[derive(Drop)]
pub struct OrderBody {
    /// The orders: from 1 to 64.
    pub orders: Vec<NewOrder>,
    /// The last moment at which they may be submitted, in milliseconds of the program's clock, if the body gives one.
    pub before: Option<u64>,
}

/// Reads the orders of a body in JSON. The body is an object with `run`, the number of a run of the program as a text,
/// and `orders`, a list of 1 to 64 orders. It may also have `before`, the last moment in milliseconds of the program's
/// clock. Each order has the number `ono` of its object, what the page showed of it (its role as `role`, the role of
/// the block that lists it as `block`, and if a switch is set the name of the position as `name`), and one of `set`
/// with a word, `label` with a text, `lock` with true and `unlock` with true; if there are several, the first in this
/// order counts. `run` is the number of this run. Nothing is ordered yet. A refusal has the first fault that is found:
/// of the body, and then of the first order that has one.
pub fn orders_in(alloc: Global, known: &View, run: u64, body: &[u8]) -> Result<OrderBody, Refusal>
    ensures { IfOk result (λ read. AreOrdersIn run body.now read.orders.items read.before) }
{
    match Value::from_slice(alloc, body) {
        Ok(json) => orders_of(alloc, known, run, &json),
        Err(_) => Err(Refusal::from(BodyFault::Form)),
    }
}

/// Reads the orders of a body from its JSON, as [`orders_in`] does.
fn orders_of(alloc: Global, known: &View, run: u64, json: &Value) -> Result<OrderBody, Refusal>
    ensures { IfOk result (λ read. AreOrdersOf run (view json.now) read.orders.items read.before) }
{
    let mut digits = Buffer::new();
    match json.get("run").and_then(Value::as_str) {
        Some(named) if digits.format(run).as_bytes() == named.as_bytes() => {}
        Some(_) => return Err(Refusal::from(BodyFault::Run)),
        None => return Err(Refusal::from(BodyFault::Form)),
    }
    let before = before_in(json)?;
    let Some(orders) = json.get("orders").and_then(Value::as_array) else {
        return Err(Refusal::from(BodyFault::Form));
    };
    let orders = all_wanted(alloc, known, orders.as_slice())?;
    Ok(OrderBody { orders, before })
}

/// Reads the last moment that a body gives, if it gives one.
fn before_in(json: &Value) -> Result<Option<u64>, BodyFault>
    ensures { IfOk result (λ before. before ≡ last_in (view json.now)) }
{
    match json.get("before") {
        Some(moment) => match moment.as_u64() {
            Some(moment) => Ok(Some(moment)),
            None => Err(BodyFault::Form),
        },
        None => Ok(None),
    }
}

/// Reads all orders of a body: from 1 to 64.
#[tactic(auto, using(crate::proofs::BodyLemmas::wanted_rules))]
fn all_wanted(alloc: Global, known: &View, orders: &[Value]) -> Result<Vec<NewOrder>, Refusal>
    ensures { IfOk result (λ v. AreWanted (items_view orders.now) v.items) }
{
    if orders.is_empty() || orders.len() > MOST_ORDERS {
        return Err(Refusal::from(BodyFault::Form));
    }
    let mut all = Vec::new(alloc);
    for order in orders {
        match wanted_in(known, order) {
            Ok(wanted) => {
                if all.push(wanted).is_err() {
                    return Err(Refusal::from(BodyFault::Memory));
                }
            }
            Err(fault) => return Err(Refusal {
                fault,
                at: Some(all.len()),
            }),
        }
    }
    Ok(all)
}

/// Reads one order. Its object must be known. The name of the position is empty if the order has none.
fn wanted_in(known: &View, order: &Value) -> Result<NewOrder, BodyFault>
    ensures { IfOk result (λ w. IsWanted (view order.now) w) }
{
    let Some(ono) = order.get("ono").and_then(Value::as_u64) else {
        return Err(BodyFault::Form);
    };
    let Ok(ono) = u32::try_from(ono) else {
        return Err(BodyFault::Form);
    };
    let ono = Ono(ono);
    let role = text_in(order, "role")?;
    let block = text_in(order, "block")?;
    let name = order.get("name").and_then(Value::as_str);
    let position = shown(name.unwrap_or(""))?;
    let identity = Identity {
        role,
        block,
        position,
    };
    if known.inventory().class_of(ono).is_none() {
        return Err(BodyFault::Object);
    }
    let action = action_in(known, ono, order)?;
    Ok(NewOrder {
        ono,
        identity,
        action,
    })
}

/// Reads the text that an order has under this name.
fn text_in(order: &Value, name: &str) -> Result<Label, BodyFault>
    ensures { IfOk result (IsGivenAs (option_and_then as_str (get name.now (view order.now)))) }
{
    match order.get(name).and_then(Value::as_str) {
        Some(text) => shown(text),
        None => Err(BodyFault::Form),
    }
}

/// Copies a text that the page showed, which has at most 64 bytes.
fn shown(text: &str) -> Result<Label, BodyFault>
    ensures { IfOk result (λ label. label_bytes label ≡ text.now) }
{
    Label::given(text).ok_or(BodyFault::Form)
}

/// Reads the action of an order. The clause says of a value only that its word is for it in some class.
fn action_in(known: &View, ono: Ono, order: &Value) -> Result<Action, BodyFault>
    ensures { IfOk result (λ action. IsActionIn (view order.now) action) }
{
    if let Some(word) = order.get("set").and_then(Value::as_str) {
        return match known.value_of_word(ono, word) {
            Some(value) => Ok(Action::Set(value)),
            None => Err(BodyFault::Value),
        };
    }
    if let Some(text) = order.get("label").and_then(Value::as_str) {
        return match Label::new(text) {
            Some(label) => Ok(Action::Rename(label)),
            None => Err(BodyFault::Value),
        };
    }
    if order.get("lock").and_then(Value::as_bool) == Some(true) {
        Ok(Action::Lock)
    } else if order.get("unlock").and_then(Value::as_bool) == Some(true) {
        Ok(Action::Unlock)
    } else {
        Err(BodyFault::Form)
    }
}
