//! A whole batch of records.
ghost use Rattle.std.specs.Prelude.{◌≡◌, ◌+◌, ◌^◌, ◌<◌, length, is_ok, IsOkUnless};
ghost use Rattle.histories.specs.Many.{kept};
ghost use Rattle.rules_next.specs.declared.interface.Fault.TheVariants.{HistoryFull};
ghost use Rattle.work.specs.Lent.{Handles};
ghost use Rattle.work.specs.Batches.{record_all};
ghost use Rattle.work.specs.Setting.{env_of};

use super::handling::mark_all_erased;
use super::lent::Lent;
use super::meeting::Setting;
use calls::events::RecorderEvent;
use conversion::DialectConversion;
use histories::Histories;
use rules_next::interface::Fault;

/// What `events` say of types goes into the histories, in their order, until one would pass a limit; that one changes nothing.
fn record_all(histories: &mut Histories, events: &[RecorderEvent]) -> Result<(), Fault>
    ensures all { is_ok result ≡ (record_all (kept histories.old) events.now).all }
    ensures fault { IsOkUnless result HistoryFull }
    ensures after { kept histories.new ≡ (record_all (kept histories.old) events.now).histories }
{
    for event in events {
        histories.record(*event)?;
    }
    Ok(())
}

/// Handles `events`: first every erased operation is marked, then histories are kept, then what was inserted is met; and where all went
/// well, the histories of dead values go.
pub fn handle_events<C: DialectConversion>(
    lent: &mut Lent<'_>,
    histories: &mut Histories,
    setting: &Setting<'_, C>,
    events: &[RecorderEvent],
) -> Result<(), Fault>
    requires room { lent.old.queued.now + length events.now < 2 ^ 64 }
    ensures { Handles C.meaning (env_of setting.now) setting.now.hand events.now lent.old (kept histories.old) lent.new (kept histories.new) result }
{
    mark_all_erased(&mut lent.work.states, setting.store, events);
    record_all(histories, events)?;
    lent.meet_inserted(setting, events)?;
    histories.forget_dead(setting.store);
    Ok(())
}
