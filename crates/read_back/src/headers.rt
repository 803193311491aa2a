//! What is shown of a job in a header line is read back, for an audit, as that job.

ghost use Rattle.read_back.specs.Headers.{HeaderIsOneLine, HeaderIsReadBack, HeaderReads, ReadIsShowable};

/// An auditor reads of a job's header line just that job, without its seeds.
pub fn header_is_read_back()
    ensures { HeaderIsReadBack }
{}

/// A job's header line is text, and is read as the header that is shown.
pub fn header_reads()
    ensures { HeaderReads }
{}

/// A job's header line holds no line feed.
pub fn header_is_one_line()
    ensures { HeaderIsOneLine }
{}

/// Every job that is read of a header line, but for a plain one, can be shown.
pub fn read_is_showable()
    ensures { ReadIsShowable }
{}
