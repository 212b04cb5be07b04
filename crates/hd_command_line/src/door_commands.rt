//! The words of the commands that ask a server at its door.

use crate::door_options::DOOR_ASKED;
use crate::door_texts::{STATUS, STATUS_ABOUT, STATUS_EXAMPLE, STOP, STOP_ABOUT, STOP_EXAMPLE};
use crate::words::CommandWords;

/// The words of `status` and `stop`.
pub(crate) fn status_and_stop() -> &'static [CommandWords] {
    &STATUS_AND_STOP
}

/// The words of `status` and `stop`.
static STATUS_AND_STOP: [CommandWords; 2] = [
    CommandWords {
        name: "status",
        about: STATUS_ABOUT,
        long_about: STATUS,
        example: STATUS_EXAMPLE,
        options: &[DOOR_ASKED],
        groups: &[],
    },
    CommandWords {
        name: "stop",
        about: STOP_ABOUT,
        long_about: STOP,
        example: STOP_EXAMPLE,
        options: &[DOOR_ASKED],
        groups: &[],
    },
];
