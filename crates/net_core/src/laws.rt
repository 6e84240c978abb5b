//! What holds of every net, at every moment of every script.

ghost use Rattle.net_core.specs.Laws.{AgreementIsTold, AnswersArrive, NetsAreReached, OnlyEditsAdd, OnlyFullRefuses, PushesArrive};

/// Every event of a peer, a pool or a packet stands in the history of the peer whose name is its agent, and no id stands twice
/// there. Only a peer's local edits add events of its agent. A delivery refuses an event only where a list is full. After the
/// packet of a push, or the one that answers a question, is delivered to a receiver with room, this holds all that the sender held
/// when it made the packet. `agree yes` is said just where all peers hold the same events, and then all texts are the same.
pub fn law_net()
    ensures reached { NetsAreReached }
    ensures edits { OnlyEditsAdd }
    ensures full { OnlyFullRefuses }
    ensures pushes { PushesArrive }
    ensures answers { AnswersArrive }
    ensures agreement { AgreementIsTold }
{}
