//! What is asked of an object, as a request.
ghost use Rattle.std.specs.Prelude.{◌≡◌};

use crate::panel::Panel;
use oca_control::{ControlFault, Outcome};
use oca_model::{Request, Value, ValueRequest, set_request};
use oca_net::End;
use oca_types::{Class, Handle, Ono, Params};

impl<E: End> Panel<E> {
    ghost use Rattle.oca_model.specs.declared.request.Request.TheVariants.{Set};
    ghost use Rattle.oca_model.specs.ValueRequests.{request_to};
    ghost use Rattle.oca_model.specs.Values.{class_of_value};
    ghost use Rattle.oca_panel.specs.Panels.{AsksIn};
    ghost use Rattle.oca_panel.specs.Objects.{AsksFor, BeginsSetting};
    ghost use Rattle.oca_panel.specs.PrivateObjects.{CanBeAsked};

    /// Asks an object of the class, and waits for its answer.
    pub(crate) fn ask_for(&mut self, ono: Ono, class: Class, asked: &Request) -> Outcome
        requires { CanBeAsked class asked.now }
        ensures { AsksFor ono.0 class asked.now self.old self.new result }
    {
        let mut params = Params::new();
        match asked.call(class, &mut params) {
            Ok(call) => self.ask(oca_types::Request {
                target: ono,
                method: call.method,
                count: call.count,
                params: params.as_slice(),
            }),
            Err(_) => unreachable!(),
        }
    }

    /// Asks an object for or with a value, and waits for its answer.
    pub(crate) fn ask_value(&mut self, ono: Ono, request: &ValueRequest) -> Outcome
        ensures { AsksIn (request_to ono.0 request.now) self.old self.new result }
    {
        self.ask(request.of(ono))
    }

    /// Sets an object, and waits for its answer.
    pub(crate) fn ask_to_set(&mut self, ono: Ono, value: Value) -> Outcome
        ensures { AsksFor ono.0 (class_of_value value) (Set value) self.old self.new result }
    {
        let request = set_request(value);
        self.ask_value(ono, &request)
    }

    /// Submits the command that sets the object `ono` to the value `value`, by the set method of the value's class
    /// (AES70-2), and sends it at once. Returns its handle, for [`finish_set`](Panel::finish_set). If the link becomes
    /// lost in this call, the handle is returned and the command is not sent: `finish_set` then returns `Lost`. A send
    /// that fails is not reported: the link sends the command again after 250 ms.
    ///
    /// Refusals, the first that applies, which change and send nothing: `Lost` if the link is lost or late.
    /// `HandlesSpent` if a command has the handle 4294967295 already. `SpanFull` if the next handle is not below the
    /// lowest handle whose answer was not taken yet, plus the span.
    pub fn begin_set(&mut self, ono: Ono, value: Value) -> Result<Handle, ControlFault>
        ensures { BeginsSetting ono.0 value result self.old self.new }
    {
        let request = set_request(value);
        self.begin(request.of(ono))
    }
}
