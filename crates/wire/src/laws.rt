//! Laws of frames and of what they mean.
ghost use Rattle.std.specs.Prelude.{◌≡◌};
ghost use Rattle.wire.specs.Laws.{OneListOfFrames, EachStreamHasFrames, FramesAfterFrames, OneMeaning, WrittenIsRead};
ghost use Rattle.wire.specs.RecordLaws.{OneReadingOfRecord, EachRecordHasFrames, FormOneIsStream, RestOfRecord, ConversionIsRecord, ConversionMeans};
ghost use Rattle.wire.specs.Meaning.{ask_size, request_id};
ghost use Rattle.wire.specs.Records.{header};

use crate::form::HEADER;
use crate::kind::{ASK_SIZE, REQUEST_ID};

/// A stream has one list of frames and one rest.
pub fn one_list_of_frames()
    ensures { OneListOfFrames }
{}

/// Each list of bytes is the frames of a stream, and a rest.
pub fn each_stream_has_frames()
    ensures { EachStreamHasFrames }
{}

/// Frames that were written, one after the other, are the first frames of the stream, whatever
/// follows them.
pub fn frames_after_frames()
    ensures { FramesAfterFrames }
{}

/// A body means one frame.
pub fn one_meaning()
    ensures { OneMeaning }
{}

/// What `write` wrote of a message is what `next` reads: the first frame of a stream that begins
/// with it is that message, and what follows it is left.
pub fn written_is_read()
    ensures { WrittenIsRead }
{}

/// A record has one form, one list of frames and one rest, and each list of bytes is a record. A
/// record of form 1 is a stream of frames that came in. A record of form 2 ends between two frames,
/// at a byte that is no direction, or inside a frame.
pub fn records_have_frames()
    ensures one { OneReadingOfRecord }
    ensures each { EachRecordHasFrames }
    ensures stream { FormOneIsStream }
    ensures rest { RestOfRecord }
{}

/// The constant is what a record of form 2 begins with.
pub fn header_begins_form_2()
    ensures { HEADER ≡ header }
{}

/// The constants are the id and the size of a hash request.
pub fn constants_of_hash_requests()
    ensures id { REQUEST_ID ≡ request_id }
    ensures size { ASK_SIZE ≡ ask_size }
{}

/// The conversion of whole frames is a record of form 2, whose frames mean what the converted
/// frames do, and the requests before hashes.
pub fn conversion_is_record()
    ensures record_of { ConversionIsRecord }
    ensures means { ConversionMeans }
{}
