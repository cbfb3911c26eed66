// Laws of messages.
ghost use Rattle.eden_fuse_format.specs.Laws.{SpelledIsRead, OneMessage};

/// What the kernel spells is read as what it asks for, and bytes are one message alone.
pub fn message_laws()
    ensures spelled_is_read { SpelledIsRead }
    ensures one_message { OneMessage }
{}
