// Frames taken apart: from a line of text to the call that it writes.
ghost use Rattle.std.specs.Prelude.{◌≡◌, Some, None, Ok, MatchResult};
ghost use Rattle.refusals.specs.declared.refusal.Refusal.TheVariants.{Malformed};
ghost use Rattle.calls.specs.declared.call.Call.{Call as AnyCall};
ghost use Rattle.calls.specs.declared.event.LicenceEvent.{LicenceEvent as AnyEvent};
ghost use Rattle.wire.specs.Decoder.{call_of, parsed, put_of, event_of};
ghost use Rattle.wire.specs.Frame.{frame_line, FitsFrame};
ghost use Rattle.wire.specs.Kind.{kind_byte};

use crate::hex::unhex;
use calls::call::Call;
use calls::event::{Action, LicenceEvent};
use leap::bulletin::Bulletin;
use refusals::refusal::Refusal;
use wire::kind::Kind;

/// The call that a line writes; a line that writes none is refused as malformed.
pub fn decode(line: &[u8]) -> Result<Call<LicenceEvent>, Refusal>
    ensures writes { MatchResult result (λ c. frame_line c ≡ line.now) (λ e. e ≡ Malformed) }
    ensures inverts { (c : AnyCall AnyEvent) → FitsFrame c → frame_line c ≡ line.now → result ≡ Ok c }
{
    let bytes = unhex(line).ok_or(Refusal::Malformed)?;
    parse(bytes.as_slice()).ok_or(Refusal::Malformed)
}

// By the kind byte and the rest. (Slice patterns and `let .. else` here and below, as was asked for: docs/DECISIONS.md.)
fn parse(bytes: &[u8]) -> Option<Call<LicenceEvent>>
    ensures { result ≡ parsed bytes.now }
{
    let [byte, rest @ ..] = bytes else {
        return None;
    };
    let Ok(kind) = Kind::try_from(*byte) else {
        return None;
    };
    parse_kind(kind, rest)
}

// Each kind has its one length.
fn parse_kind(kind: Kind, rest: &[u8]) -> Option<Call<LicenceEvent>>
    ensures { result ≡ call_of (kind_byte kind) rest.now }
{
    match (kind, rest) {
        (Kind::Put, _) => parse_put(rest),
        (Kind::Close, [feed]) => Some(Call::Close { feed: *feed }),
        (Kind::Take, []) => Some(Call::Take),
        (Kind::Renew, [change, d0, d1, d2, d3, x0, x1, x2, x3]) => Some(Call::Renew(Bulletin {
            change: *change,
            day: u32::from_be_bytes([*d0, *d1, *d2, *d3]),
            expiry: u32::from_be_bytes([*x0, *x1, *x2, *x3]),
        })),
        _ => None,
    }
}

// A put: its feed, the two halves of its stamp, and its event.
fn parse_put(bytes: &[u8]) -> Option<Call<LicenceEvent>>
    ensures { result ≡ put_of bytes.now }
{
    let [feed, rest @ ..] = bytes else {
        return None;
    };
    let [
        h0,
        h1,
        h2,
        h3,
        h4,
        h5,
        h6,
        h7,
        l0,
        l1,
        l2,
        l3,
        l4,
        l5,
        l6,
        l7,
        event @ ..,
    ] = rest
    else {
        return None;
    };
    let hi = u64::from_be_bytes([*h0, *h1, *h2, *h3, *h4, *h5, *h6, *h7]);
    let lo = u64::from_be_bytes([*l0, *l1, *l2, *l3, *l4, *l5, *l6, *l7]);
    let body = parse_event(event)?;
    Some(Call::Put {
        feed: *feed,
        stamp: (hi, lo),
        body,
    })
}

// An event: an action that is one of the three, a seat and a tool.
fn parse_event(bytes: &[u8]) -> Option<LicenceEvent>
    ensures { result ≡ event_of bytes.now }
{
    let [code, s0, s1, s2, s3, t0, t1] = bytes else {
        return None;
    };
    let Ok(action) = Action::try_from(*code) else {
        return None;
    };
    Some(LicenceEvent {
        action,
        seat: u32::from_be_bytes([*s0, *s1, *s2, *s3]),
        tool: u16::from_be_bytes([*t0, *t1]),
    })
}
