// The channels of television that are on air: whether a list of them may be lent, and which frequencies it takes out.
// The contracts cite specs/Channels.antt.
#![tactic(auto)]

mod chart;

ghost use Rattle.std.specs.Prelude.{◌≡◌, true, ◌≤◌, ◌<◌, length};
ghost use Rattle.channels.specs.Channels.{lower_edge, covers as covers_of, channel_ok, channels_ok, on_air};

use crate::chart::lower_edges;

// Whether entry i of the list is above the one before it, and a channel.
fn is_channel(channels: &[u8], i: usize) -> bool
    requires { i < length channels.now }
    ensures { result ≡ channel_ok channels.now i }
{
    let c = channels[i];
    let in_range = (21 <= c) & (c <= 48);
    if i == 0 {
        return in_range;
    }
    (channels[i - 1] < c) & in_range
}

// Whether the list may be lent: cause 17 refuses all others.
pub fn is_channel_list(channels: &[u8]) -> bool
    ensures { result ≡ channels_ok channels.now }
{
    for i in 0..channels.len() {
        if !is_channel(channels, i) {
            return false;
        }
    }
    true
}

// The lower edge of channel c in kHz.
fn lower_edge(c: u8) -> usize
    requires { (21 ≤ c) × (c ≤ 48) }
    ensures { result ≡ lower_edge c }
{
    lower_edges()[usize::from(c - 21)] as usize
}

// Whether channel c covers the frequency x.
fn covers(c: u8, x: usize) -> bool
    requires { (21 ≤ c) × (c ≤ 48) }
    ensures { result ≡ covers_of c x }
{
    let low = lower_edge(c);
    (low <= x) & (x < low + 8000)
}

// Whether one of the channels covers the frequency x.
pub fn is_on_air(channels: &[u8], x: usize) -> bool
    requires { channels_ok channels.now ≡ true }
    ensures { result ≡ on_air channels.now x }
{
    for c in channels {
        if covers(*c, x) {
            return true;
        }
    }
    false
}
