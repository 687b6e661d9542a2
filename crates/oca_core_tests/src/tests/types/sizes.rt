//! Sizes that a program chooses.
use oca_types::{Peers, Sizes, Span, Window};
use std::process::Abort;

/// What is made of a number, where there is such a size: of a window, of peers and of a span.
fn made_of(number: u8) -> (Option<u8>, Option<u8>, Option<u8>) {
    let window = match Window::new(number) {
        Some(window) => Some(window.get()),
        None => None,
    };
    let peers = match Peers::new(number) {
        Some(peers) => Some(peers.get()),
        None => None,
    };
    match Span::new(number) {
        Some(span) => (window, peers, Some(span.get())),
        None => (window, peers, None),
    }
}

/// A size is from 1 to the most.
pub fn are_limited(rt: &impl Abort) {
    assert_eq!(rt; made_of(0), (None, None, None));
    assert_eq!(rt; made_of(32), (Some(32), Some(32), Some(32)));
    assert_eq!(rt; made_of(64), (Some(64), Some(64), None));
    assert_eq!(rt; made_of(65), (None, None, None));
}

/// What sizes are that nobody chose.
pub fn are_chosen(rt: &impl Abort) {
    let sizes = Sizes::default();
    assert_eq!(rt; (sizes.window.get(), sizes.peers.get()), (32, 16));
    let (window, peers) = (Window::default(), Peers::default());
    assert_eq!(rt;
        (window.get(), peers.get(), Span::default().get()),
        (32, 16, 16)
    );
}
