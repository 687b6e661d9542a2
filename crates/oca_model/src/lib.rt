//! Values, their limits, requests and answers, each by name, for both ends: what a panel asks is what a device
//! understands, and what the device answers is what the panel reads.
//!
//! Begin with [`Value`]: `set_request(Value::Mute(MuteState::Unmuted)).of(Ono(4097))` is what `ask` of `oca_control`
//! takes, and [`Reading::read`] reads the answer to [`get_request`]. [`Request`] is what can be asked of an object by
//! any method, [`Answer`] what is answered. [`word_of`] and [`value_from_word`] are the words for values. Nothing here
//! takes memory, and nothing reads a clock.
#![tactic(auto)]

mod answer;
mod asked;
mod held;
mod item;
mod laws;
mod list;
mod member;
mod parameters;
mod reading;
mod request;
mod setting;
mod status;
mod value;
mod value_number;
mod value_request;
mod words;

pub use answer::{
    Answer, Descendants, Members, Shape, put_flags, put_names, read_names, read_text, shape_of,
};
pub use asked::Asked;
pub use held::{HeldText, HeldTexts};
pub use laws::{law_of_answers, law_of_readings, law_of_requests, law_of_values};
pub use member::{
    ClassFields, Descendant, MOST_FIELDS, MOST_MEMBERS, Member, MemberNumbers, class_with,
    read_class_fields, read_members,
};
pub use reading::{Ranged, Reading, read_value};
pub use request::{Call, Flags, Names, Request, RequestFault};
pub use setting::SettingFault;
pub use status::status_name;
pub use value::{MuteState, PolarityState, Value, ValueFault};
pub use value_request::{ValueRequest, get_request, set_request};
pub use words::{class_word, value_from_word, word_of};
