//! What is said is put on the link.

ghost use Rattle.std.specs.Prelude.{◌≡◌, ◌++◌, IfSome};
ghost use Rattle.floor_text.specs.Outside.{HasCause};
ghost use Rattle.links.specs.Links.{Puts};

use floor_text::Failed;
use links::Link;

/// Puts bytes, if there are any.
pub(crate) fn put_some<L: Link>(link: &mut L, bytes: &[u8]) -> Result<(), Failed>
    ensures told { IfSome (L.told link.old) (λ t. Puts t bytes.now (L.told link.new) result) }
    ensures cause { HasCause (L.faults link.old) (L.faults link.new) result }
{
    if bytes.is_empty() {
        return Ok(());
    }
    link.put(bytes)
}

/// Puts the news and behind them the reply: at once, where there is memory for it.
pub(crate) fn put_both<L: Link>(
    link: &mut L,
    news: &mut Vec<u8>,
    reply: &[u8],
) -> Result<(), Failed>
    ensures told { IfSome (L.told link.old)
        (λ t. Puts t (news.old.items ++ reply.now) (L.told link.new) result) }
    ensures cause { HasCause (L.faults link.old) (L.faults link.new) result }
{
    if news.extend_from_slice(reply).is_ok() {
        return put_some(link, news);
    }
    put_some(link, news)?;
    put_some(link, reply)
}
