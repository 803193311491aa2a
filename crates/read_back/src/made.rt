//! What is written of a job that is made is read back as that job, with its events.

ghost use Rattle.read_back.specs.Made.{GeneratedRunIsSummed, GeneratedTextIsReadBack, MadeHeaderIsOneLine, MadeHeaderIsReadBack, MadeHeaderReads};
ghost use Rattle.read_back.specs.Made.{MadeOutputIsReadBack, MadeTextIsReadBack, ProgramHasTexts, TextHasOneStory, TextIsItsLines, WholeTextHasOneStory};

/// The program's strategies have texts for their names.
pub fn program_has_texts()
    ensures { ProgramHasTexts }
{}

/// Lines that make the same text are the same lines.
pub fn text_has_one_story()
    ensures { TextHasOneStory }
{}

/// A text that is made of lines has just these lines.
pub fn text_is_its_lines()
    ensures { TextIsItsLines }
{}

/// Two whole transcripts that are one text tell of one job and one book.
pub fn whole_text_has_one_story()
    ensures { WholeTextHasOneStory }
{}

/// The header line of a made job is text, and is read as what it says.
pub fn made_header_reads()
    ensures { MadeHeaderReads }
{}

/// The header line of a made job holds no line feed.
pub fn made_header_is_one_line()
    ensures { MadeHeaderIsOneLine }
{}

/// Whatever text reads as a made job's header gives that job.
pub fn made_text_is_read_back()
    ensures { MadeTextIsReadBack }
{}

/// The header line of a made job gives that job.
pub fn made_header_is_read_back()
    ensures { MadeHeaderIsReadBack }
{}

/// What `make` writes is read as the job that it made, with the further lines as they stood.
pub fn made_output_is_read_back()
    ensures { MadeOutputIsReadBack }
{}

/// What `gen` writes is read as the number's job, with the number's events.
pub fn generated_text_is_read_back()
    ensures { GeneratedTextIsReadBack }
{}

/// Its run is the one that the number's summary tells of.
pub fn generated_run_is_summed()
    ensures { GeneratedRunIsSummed }
{}
