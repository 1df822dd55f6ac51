//! Turns a reply of a known kind into a `Result`.
ghost use Rattle.std.specs.Prelude.{◌≡◌};
ghost use Rattle.cacache_calls.specs.declared.reply.Reply.TheVariants as replies;
ghost use Rattle.cacache_calls.specs.{Promises.{Only, OnlyStores, OnlyReads, OnlyLooksUp, OnlyCopies}, Replies.{done, looked_up}, Runs.{plain_reply, reply_of}};

use crate::reply::Reply;
use cacache_core::bytes::Bytes;
use cacache_core::errors::Result;
use cacache_core::integrity::Integrity;
use cacache_entry::Metadata;

impl Reply {
    /// The integrity of what is stored, or why the call failed.
    pub fn stored(self) -> Result<Integrity>
        requires { OnlyStores (plain_reply self) }
        ensures { reply_of replies.Stored result ≡ plain_reply self }
    {
        match self {
            Reply::Stored(integrity) => Ok(integrity),
            Reply::Refused(error) => Err(error),
            _ => unreachable!(),
        }
    }

    /// The bytes that were read, or why the call failed.
    pub fn read(self) -> Result<Bytes>
        requires { OnlyReads (plain_reply self) }
        ensures { reply_of replies.Read result ≡ plain_reply self }
    {
        match self {
            Reply::Read(bytes) => Ok(bytes),
            Reply::Refused(error) => Err(error),
            _ => unreachable!(),
        }
    }

    /// What the lookup of a key found, or why the call failed.
    pub fn looked_up(self) -> Result<Option<Metadata>>
        requires { OnlyLooksUp (plain_reply self) }
        ensures { reply_of looked_up result ≡ plain_reply self }
    {
        match self {
            Reply::LookedUp(Some(found)) => Ok(Some(found.into_metadata())),
            Reply::LookedUp(None) => Ok(None),
            Reply::Refused(error) => Err(error),
            _ => unreachable!(),
        }
    }

    /// How many bytes were copied, or why the call failed.
    pub fn copied(self) -> Result<u64>
        requires { OnlyCopies (plain_reply self) }
        ensures { reply_of replies.Copied result ≡ plain_reply self }
    {
        match self {
            Reply::Copied(count) => Ok(count),
            Reply::Refused(error) => Err(error),
            _ => unreachable!(),
        }
    }

    /// Nothing if the call is done, or why it failed.
    pub fn done(self) -> Result<()>
        requires { Only replies.Done (plain_reply self) }
        ensures { reply_of done result ≡ plain_reply self }
    {
        match self {
            Reply::Done => Ok(()),
            Reply::Refused(error) => Err(error),
            _ => unreachable!(),
        }
    }
}
