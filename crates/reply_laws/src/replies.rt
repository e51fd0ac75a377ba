//! A law of data replies, as the contract of a call that does nothing.
ghost use Rattle.std.specs.Prelude.{◌≡◌, Ok};
ghost use Rattle.fm_edition.specs.Held.{Held};
ghost use Rattle.dap_plan.specs.Parts.{bytes_of};
ghost use Rattle.dap_client.specs.DataReading.{message_or_fault};
ghost use Rattle.web_frame.specs.Items.{Item};
ghost use Rattle.web_path.specs.declared.target.Service.TheVariants.{Dods};
ghost use Rattle.web_path.specs.declared.target.Target.{Target};
ghost use Rattle.dap_reply.specs.declared.body.Body.{Body};
ghost use Rattle.dap_reply.specs.declared.status.Status.TheVariants.{Fine};
ghost use Rattle.dap_reply.specs.Asked.{shown_of};
ghost use Rattle.dap_reply.specs.Reply.{answer_to, target_wanted};
ghost use Rattle.reply_laws.specs.DataMessage.{message_sent, IsOfBytes, SaysData};

/// The body of each reply with status 200 to a request for data spells one message: the label of its target, what is
/// declared of what is sent, and its values. So a client that reads it gets the values of the collection.
pub fn a_data_reply_spells_its_message()
    ensures spelled { (held : Held) (item : Item) (target : Target) → IsOfBytes held
        → target_wanted held.proto.site item ≡ Ok target → target.service ≡ Dods
        → (answer_to held.proto held.files item).status ≡ Fine
        → SaysData held target (answer_to held.proto held.files item).body }
    ensures read { (held : Held) (target : Target) (body : Body) → (says : SaysData held target body)
        → message_or_fault (bytes_of body.bytes)
        ≡ Ok (message_sent (shown_of held.proto held.files target) target says.projected) }
{}
