//! Commands of any method that are begun, for several in flight at once.
use crate::panel::Panel;
use crate::trouble::Trouble;
use oca_model::Request;
use oca_net::End;
use oca_types::{Class, Handle, Ono, Params};

impl<E: End> Panel<E> {
    ghost use Rattle.oca_panel.specs.Beginnings.{BeginsAsking};

    /// Submits the request `asked` to the object `ono`, which is of the class `class`, sends it at once, and returns
    /// its handle, for [`finish`](Panel::finish). [`answer_of`](crate::answer_of) reads the answer from the outcome. The
    /// object's class is not asked. If the link becomes lost in this call, the handle is returned and the command is not sent. A send
    /// that fails is not reported: the link sends the command again after 250 ms.
    ///
    /// Refusals, the first that applies, which change and send nothing. `NoValue` if the class has no method for the
    /// request, the value is of another class, or the encoded parameters do not fit in 1,452 bytes. `NotSubmitted` with
    /// the link's reason in the cases of [`begin`](Panel::begin), for example `TooLong` if the parameters have more
    /// than 1,445 bytes.
    pub fn begin_request(
        &mut self,
        ono: Ono,
        class: Class,
        asked: &Request,
    ) -> Result<Handle, Trouble>
        ensures { BeginsAsking ono.0 class asked.now result self.old self.new }
    {
        let mut params = Params::new();
        match asked.call(class, &mut params) {
            Ok(call) => {
                let request = oca_types::Request {
                    target: ono,
                    method: call.method,
                    count: call.count,
                    params: params.as_slice(),
                };
                match self.begin(request) {
                    Ok(handle) => Ok(handle),
                    Err(fault) => Err(Trouble::NotSubmitted(fault)),
                }
            }
            Err(_) => Err(Trouble::NoValue),
        }
    }
}
