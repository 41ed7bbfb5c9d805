ghost use Rattle.events.specs.Items.{is_report_end, mark_from};

use crate::RingItem;
use events::Item;

/// Among items only a report end closes a group, and a mark keeps the time and number of the item it is made from.
impl RingItem for Item {
    ghost closing = { is_report_end };

    ghost lost = { mark_from };

    fn closes(&self) -> bool {
        self.is_report_end()
    }

    fn mark(&self) -> Item {
        Item::loss_mark(self.time, self.number)
    }
}
