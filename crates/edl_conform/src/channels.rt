//! Channels of events.

ghost use Rattle.std.specs.Prelude.{◌≡◌};
ghost use Rattle.edl_frames.specs.Conformed as conformed;
ghost use Rattle.edl_frames.specs.Shown as shown;

use edl_frames::is_on;
use edl_list::{Channel, Event};

/// Whether a channel has an event.
pub(crate) fn has_events(channel: Channel, events: &[Event]) -> bool
    ensures { result ≡ conformed.has_events (shown.on_channel channel events.now) }
{
    'events: for event in events {
        if is_on(channel, event) {
            return true;
        }
    }
    false
}
