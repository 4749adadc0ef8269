mod ack_window_rows;
mod fcp_framing_rows;
mod flow_ledger_rows;
mod slot_publisher_rows;
