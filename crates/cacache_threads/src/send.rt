//! Which values may go to another thread (`Send`), and which threads may share (`Sync`): JSON values, commands, replies,
//! records and jobs. A crate that starts threads over them cites the lemmas.

ghost use denote.Param.Send.{IsSend, IsSync};
ghost use Rattle.serde_json.specs.contracts.value.Value as value;
ghost use Rattle.cacache_calls.specs.contracts.command.Command as command;
ghost use Rattle.cacache_calls.specs.contracts.reply.Reply as reply;

/// JSON values, commands and replies may be handed to other threads, and shared. Nothing is done.
pub fn send_laws()
    ensures sent_value { IsSend value.the_row }
    ensures shared_value { IsSync value.the_row }
    ensures sent_command { IsSend command.the_row }
    ensures shared_command { IsSync command.the_row }
    ensures sent_reply { IsSend reply.the_row }
    ensures shared_reply { IsSync reply.the_row }
{}
