//! Channels of events.

ghost use Rattle.std.specs.Prelude.{◌≡◌};
ghost use Rattle.edl_frames.specs.Shown as shown;

use edl_list::{Channel, Event};

/// Whether an event is on a channel.
pub fn is_on(channel: Channel, event: &Event) -> bool
    ensures { result ≡ shown.is_on channel event.now }
{
    match (channel, event.channel) {
        (Channel::V, Channel::V) => true,
        (Channel::A, Channel::A) => true,
        (Channel::A2, Channel::A2) => true,
        _ => false,
    }
}
