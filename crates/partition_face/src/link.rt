// Links to a peer, by what is said over them.
ghost use Rattle.partition_face.specs.Links.{LinkKnown, Receives, Sends};

use mx_base::Failed;

/// A way to a peer, over which bytes go both ways, as over a socket.
pub trait Link {
    /// The bytes that were sent, those that came, and whether the peer closed, where it tells that, and how often it
    /// failed. The count never falls. A link that was handed out has an empty talk and the count 0.
    ghost known: { Self → LinkKnown };

    /// Sends the piece. Where the link fails it may have sent a prefix of it, and counts that. It takes no memory.
    fn send(&mut self, piece: &[u8]) -> Result<(), Failed>
        ensures { Sends piece.now (known self.old) (known self.new) result };

    /// Waits for bytes, writes them to the beginning of the room, and answers how many came. 0 into a room that isn't
    /// empty means that the peer closed. Where the link fails none came, and it counts that. It takes no memory.
    fn receive(&mut self, room: &mut [u8]) -> Result<usize, Failed>
        ensures { Receives room.new (known self.old) (known self.new) result };
}
