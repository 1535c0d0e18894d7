//! What follows from the definitions, for their readers. The calls do nothing; their contracts are the laws.

ghost use Rattle.lwm2m_payloads.specs.Shown.{ShownIsRead};
ghost use Rattle.lwm2m_payloads.specs.Written.{WritesResource, WritesValues, KeepsInstances, PayloadsGiveOnce};

/// After a Write each full path of the instance has what is given there and kept; or nothing, if Replace removed the
/// resource or the part; or what it had. Other paths and the instances stay. This holds if each resource and part is
/// given once, and payloads give so (`once`).
pub fn writes()
    ensures resource { WritesResource }
    ensures values { WritesValues }
    ensures instances { KeepsInstances }
    ensures once { PayloadsGiveOnce }
{}

/// The TLV of a Read, if it has at most 1,024 bytes, is read as the values that it lists, in their order, each valid
/// and of the kind of its resource.
pub fn reads()
    ensures shown { ShownIsRead }
{}
