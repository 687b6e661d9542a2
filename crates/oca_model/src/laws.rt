//! What the definitions say of one another.
ghost use Rattle.oca_model.specs.Values.{ValuesAreReadBack};
ghost use Rattle.oca_model.specs.Readings.{ReadingsAreReadBack};
ghost use Rattle.oca_model.specs.Requests.{RequestsAreUnderstood};
ghost use Rattle.oca_model.specs.Answers.{AnswersAreRead};

/// Law: the encoding of a value by [`Value::put`](crate::Value::put) (AES70-3) is read by
/// [`Value::read`](crate::Value::read) as the same value. A *value* is what an object is set to. The function states
/// this law as its contract, and does nothing at run time. The premises:
/// - The encoding is read with the value's class. The law holds for each value.
/// - The number is of its type, since a contract has numbers of any size. In Rust that is always true.
pub fn law_of_values()
    ensures { ValuesAreReadBack }
{}

/// Law: the encoding of a reading by [`Reading::put`](crate::Reading::put) (AES70-3) is read by
/// [`Reading::read`](crate::Reading::read) as the same reading, with its limits. A *reading* is the value of an object
/// with its limits, which are the least and the greatest value. The function states this law as its contract, and does
/// nothing at run time. The premises:
/// - The encoding is read with the reading's class. The law holds for each reading.
/// - The numbers are of their types, since a contract has numbers of any size. In Rust that is always true.
pub fn law_of_readings()
    ensures { ReadingsAreReadBack }
{}

/// Law: a device reads by [`Request::read`](crate::Request::read) the same request that a controller encoded by
/// [`Request::call`](crate::Request::call) (AES70-2). A *request* is what a command asks of an object: a method with
/// its parameters. The function states this law as its contract, and does nothing at run time. The premises:
/// - The class of the object has a method for the request. The law holds for each such class, and for each request.
/// - Numbers and texts are of their types, since a contract has numbers and texts of any size. In Rust that is always
///   true.
pub fn law_of_requests()
    ensures { RequestsAreUnderstood }
{}

/// Law: a controller reads by [`Answer::read`](crate::Answer::read) the same answer that a device encoded by
/// [`Answer::put`](crate::Answer::put) (AES70-2). An *answer* is what an object returns to a method with the status OK.
/// The function states this law as its contract, and does nothing at run time. The premises:
/// - The answer is of the kind that the method has ([`shape_of`](crate::shape_of)).
/// - If the answer is a reading, which is a value with its limits, it is of the object's class.
/// - Each member of a list has a class ([`Member::class`](crate::Member::class) is not `None`).
/// - Numbers, texts and lists are within their types and limits, since a contract has them of any size. In Rust that is
///   always true.
pub fn law_of_answers()
    ensures { AnswersAreRead }
{}
