// Calls as lines of hexadecimal text, for whoever writes frames.
ghost use Rattle.std.specs.Prelude.{◌≡◌, [], ◌∷◌, ◌++◌, OnOk};
ghost use Rattle.wire.specs.Bytes.{line_feed};
ghost use Rattle.wire.specs.Frame.{frame_bytes, frame_line, event_bytes};

use crate::hex::Part;
use calls::call::Call;
use calls::event::LicenceEvent;
use std::alloc::AllocError;
use wire::kind::Kind;
use wire::text::LINE_FEED;

/// Adds the frame of a call to a text, and a line feed.
pub fn write_call(out: &mut Vec<u8>, call: Call<LicenceEvent>) -> Result<(), AllocError>
    ensures { OnOk result (out.new.items ≡ out.old.items ++ (frame_line call ++ (line_feed ∷ []))) }
{
    call.write(out)?;
    out.push(LINE_FEED)?;
    Ok(())
}

impl Part for Call<LicenceEvent> {
    ghost bytes = { frame_bytes };

    fn write(&self, out: &mut Vec<u8>) -> Result<(), AllocError> {
        match *self {
            Call::Put { feed, stamp, body } => (Kind::Put, (feed, (stamp, body))).write(out),
            Call::Close { feed } => (Kind::Close, feed).write(out),
            Call::Take => Kind::Take.write(out),
            Call::Renew(news) => (Kind::Renew, (news.change, (news.day, news.expiry))).write(out),
        }
    }
}

impl Part for LicenceEvent {
    ghost bytes = { event_bytes };

    fn write(&self, out: &mut Vec<u8>) -> Result<(), AllocError> {
        (u8::from(self.action), (self.seat, self.tool)).write(out)
    }
}
