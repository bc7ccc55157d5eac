//! The attributes of a session's channel.

ghost use Rattle.nfs4_types.specs.Channels.{channel_attrs4, channel_attrs4_value};
ghost use Rattle.std.specs.Prelude.{refl};

use crate::AtMostOne;
use ff_xdr::{Cursor, Message, NoMemory, Out, Wire, XdrError};

/// The attributes of a session's channel, `channel_attrs4` (RFC 8881, section 18.36). Sizes are bytes.
#[derive(Clone, Copy, Debug, PartialEq, Eq)]
pub struct ChannelAttrs {
    /// The padding before the data of a WRITE.
    pub headerpadsize: u32,
    pub maxrequestsize: u32,
    pub maxresponsesize: u32,
    /// The longest reply that is kept.
    pub maxresponsesize_cached: u32,
    /// The most operations in a compound.
    pub maxoperations: u32,
    /// The most requests at one time, which is the number of slots.
    pub maxrequests: u32,
    /// How many RDMA reads there may be at one time: a list of at most one.
    pub rdma_ird: Option<u32>,
}

impl Message for ChannelAttrs {
    ghost form = { channel_attrs4 };

    ghost meaning = { channel_attrs4_value };

    ghost sound = { refl };
}

impl<'a> Wire<'a> for ChannelAttrs {
    fn read(cursor: &mut Cursor<'a>) -> Result<ChannelAttrs, XdrError> {
        let (headerpadsize, maxrequestsize, (maxresponsesize, cached, limits)) = <(
            u32,
            u32,
            (u32, u32, (u32, u32, AtMostOne<u32>)),
        )>::read(cursor)?;
        let (maxoperations, maxrequests, rdma_ird) = limits;
        Ok(ChannelAttrs {
            headerpadsize,
            maxrequestsize,
            maxresponsesize,
            maxresponsesize_cached: cached,
            maxoperations,
            maxrequests,
            rdma_ird: rdma_ird.value,
        })
    }

    fn put(&self, out: &mut Out) -> Result<(), NoMemory> {
        let rdma_ird = AtMostOne {
            value: self.rdma_ird,
        };
        let limits = (self.maxoperations, self.maxrequests, rdma_ird);
        let answers = (self.maxresponsesize, self.maxresponsesize_cached, limits);
        (self.headerpadsize, self.maxrequestsize, answers).put(out)
    }

    fn fits(&self) -> bool {
        let rdma_ird = AtMostOne {
            value: self.rdma_ird,
        };
        let limits = (self.maxoperations, self.maxrequests, rdma_ird);
        let answers = (self.maxresponsesize, self.maxresponsesize_cached, limits);
        (self.headerpadsize, self.maxrequestsize, answers).fits()
    }
}
