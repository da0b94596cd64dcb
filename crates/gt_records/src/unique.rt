ghost use Rattle.gt_records.specs.ReadingEvents.{event_of};
ghost use Rattle.gt_records.specs.RecordText.{record_text};
ghost use Rattle.gt_types.specs.declared.event.Event.{Event};
ghost use Rattle.gt_types.specs.Event.{is_recordable, recordable_collections};
ghost use Rattle.std.specs.Prelude.{◌≡◌, IsTrue, Some};

/// No text stands for two events.
pub fn record_text_unique()
    ensures { (a b : Event) → IsTrue (is_recordable recordable_collections a)
        → IsTrue (is_recordable recordable_collections b) → record_text a ≡ record_text b → a ≡ b }
{}

/// The text of an event reads back as that event.
pub fn record_text_reads_back()
    ensures { (event : Event) → IsTrue (is_recordable recordable_collections event)
        → event_of (record_text event) ≡ Some event }
{}
