//! Laws of the packets' bytes, each the contract of a function that does nothing.

ghost use Rattle.fcp_framing.specs.Laws.{SpellOnePacket, HaveOneSpelling, BeginNoOther, RefuseWhatFollows, AreReadBack, WereSpelledSo};
ghost use Rattle.fcp_framing.specs.Examples.{PacketsOfVersionOne, PacketsOfVersionTwo, RefusedBytes};

/// No bytes spell two packets.
pub fn bytes_spell_one_packet()
    ensures { SpellOnePacket }
{}

/// No packet has two spellings.
pub fn packets_have_one_spelling()
    ensures { HaveOneSpelling }
{}

/// No packet's spelling is a proper prefix of another's.
pub fn spellings_begin_no_other()
    ensures { BeginNoOther }
{}

/// A packet with bytes behind it is refused as trailing, by each reader.
pub fn what_follows_is_trailing()
    ensures { RefuseWhatFollows }
{}

/// What is encoded is read back.
pub fn what_is_encoded_is_read_back()
    ensures { AreReadBack }
{}

/// What is read was spelled so.
pub fn what_is_read_was_spelled_so()
    ensures { WereSpelledSo }
{}

/// Packets and refused bytes in full, of which the definitions compute the answers.
pub fn packets_in_full()
    ensures one { PacketsOfVersionOne }
    ensures two { PacketsOfVersionTwo }
    ensures refused { RefusedBytes }
{}
