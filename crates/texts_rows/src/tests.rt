mod receive_text_rows;
mod report_text_rows;
mod trace_text_rows;
