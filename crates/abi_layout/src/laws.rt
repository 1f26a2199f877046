//! Laws of layouts: what is written is read back, and in one way only. The statements are in `specs/Laws.antt`.
ghost use Rattle.abi_layout.specs.Layout.{IsProper};
ghost use Rattle.abi_layout.specs.Laws.{BytesAreUnique, EventIsProper, SubscriptionIsProper, ValuesAreRead};
ghost use Rattle.abi_layout.specs.Laws.{EventIsReadBack, IsReadBack, SubscriptionIsReadBack};
ghost use Rattle.abi_layout.specs.Structures.{dirent_layout, dirent_values, fdstat_layout, fdstat_values};
ghost use Rattle.abi_layout.specs.Structures.{filestat_layout, filestat_values, iovec_layout, iovec_values};
ghost use Rattle.abi_layout.specs.Structures.{recv_in_layout, recv_in_values, recv_out_layout, recv_out_values};
ghost use Rattle.abi_layout.specs.Structures.{send_in_layout, send_in_values, send_out_layout, send_out_values};
ghost use Rattle.abi_layout.specs.Structures.{threadattr_layout, threadattr_values};

/// What is read of bytes laid out is the values that they were laid out of.
pub fn values_are_read()
    ensures { ValuesAreRead }
{}

/// Two lists of bytes laid out of the same values are equal.
pub fn bytes_are_unique()
    ensures { BytesAreUnique }
{}

/// No two fields of a structure share a byte, and each lies within it.
pub fn layouts_are_proper()
    ensures dirent { IsProper dirent_layout }
    ensures event { EventIsProper }
    ensures fdstat { IsProper fdstat_layout }
    ensures filestat { IsProper filestat_layout }
    ensures iovec { IsProper iovec_layout }
    ensures recv_in { IsProper recv_in_layout }
    ensures recv_out { IsProper recv_out_layout }
    ensures send_in { IsProper send_in_layout }
    ensures send_out { IsProper send_out_layout }
    ensures subscription { SubscriptionIsProper }
    ensures threadattr { IsProper threadattr_layout }
{}

/// What is read of a structure's bytes is the structure that was written.
pub fn structures_are_read_back()
    ensures dirent { IsReadBack dirent_layout dirent_values }
    ensures fdstat { IsReadBack fdstat_layout fdstat_values }
    ensures filestat { IsReadBack filestat_layout filestat_values }
    ensures iovec { IsReadBack iovec_layout iovec_values }
    ensures recv_in { IsReadBack recv_in_layout recv_in_values }
    ensures recv_out { IsReadBack recv_out_layout recv_out_values }
    ensures send_in { IsReadBack send_in_layout send_in_values }
    ensures send_out { IsReadBack send_out_layout send_out_values }
    ensures threadattr { IsReadBack threadattr_layout threadattr_values }
{}

/// What is read of an event's bytes is the event that was written.
pub fn event_is_read_back()
    ensures { EventIsReadBack }
{}

/// What is read of a subscription's bytes is the subscription that was written.
pub fn subscription_is_read_back()
    ensures { SubscriptionIsReadBack }
{}
