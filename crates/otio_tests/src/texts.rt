//! Texts of files, and what is written of them.

/// A text that is read, and what is written of the object without blanks and line feeds.
pub struct Rewritten {
    pub text: &'static str,
    pub written: &'static str,
}

/// Texts of each schema, with what is written of them by the tables of the schemas.
pub static REWRITTEN: [Rewritten; 7] = [
    Rewritten {
        text: r#"{"enabled":false,"b":[1.50],"OTIO_SCHEMA":"Gap.01","name":null,"a":{}}"#,
        written: r#"{"OTIO_SCHEMA":"Gap.1","metadata":{},"name":"","source_range":null,"effects":[],"markers":[],"enabled":false,"b":[1.50],"a":{}}"#,
    },
    Rewritten {
        text: r#"{"OTIO_SCHEMA":"Gap.1","source_range":{"OTIO_SCHEMA":"TimeRange.1","start_time":{"OTIO_SCHEMA":"RationalTime.1","value":1,"rate":25},"duration":{"OTIO_SCHEMA":"RationalTime.1","rate":24,"value":2.5}}}"#,
        written: r#"{"OTIO_SCHEMA":"Gap.1","metadata":{},"name":"","source_range":{"OTIO_SCHEMA":"TimeRange.1","duration":{"OTIO_SCHEMA":"RationalTime.1","rate":24.0,"value":2.5},"start_time":{"OTIO_SCHEMA":"RationalTime.1","rate":25.0,"value":1.0}},"effects":[],"markers":[],"enabled":true}"#,
    },
    Rewritten {
        text: r#"{"OTIO_SCHEMA":"Clip.2","effects":[{"OTIO_SCHEMA":"LinearTimeWarp.1","time_scalar":-1.5},{"OTIO_SCHEMA":"FreezeFrame.1","time_scalar":2},{"OTIO_SCHEMA":"TimeEffect.1","name":"a"},{"OTIO_SCHEMA":"Effect.1","effect_name":"b"},{"OTIO_SCHEMA":"Foo.7"}],"markers":[{"OTIO_SCHEMA":"Marker.2"},7]}"#,
        written: r#"{"OTIO_SCHEMA":"Clip.2","metadata":{},"name":"","source_range":null,"effects":[{"OTIO_SCHEMA":"LinearTimeWarp.1","metadata":{},"name":"","effect_name":"","time_scalar":-1.5},{"OTIO_SCHEMA":"FreezeFrame.1","metadata":{},"name":"","effect_name":"","time_scalar":0.0},{"OTIO_SCHEMA":"TimeEffect.1","metadata":{},"name":"a","effect_name":""},{"OTIO_SCHEMA":"Effect.1","metadata":{},"name":"","effect_name":"b"},{"OTIO_SCHEMA":"Foo.7"}],"markers":[{"OTIO_SCHEMA":"Marker.2","metadata":{},"name":"","marked_range":null},7],"enabled":true,"media_references":{},"active_media_reference_key":"DEFAULT_MEDIA"}"#,
    },
    Rewritten {
        text: r#"{"OTIO_SCHEMA":"Clip.2","media_references":{"a":{"OTIO_SCHEMA":"ExternalReference.1","target_url":"u"},"b":null,"c":{"OTIO_SCHEMA":"GeneratorReference.1","generator_kind":"bars"},"d":{"OTIO_SCHEMA":"ImageSequenceReference.1","name_suffix":".exr","frame_step":1}},"active_media_reference_key":"a"}"#,
        written: r#"{"OTIO_SCHEMA":"Clip.2","metadata":{},"name":"","source_range":null,"effects":[],"markers":[],"enabled":true,"media_references":{"a":{"OTIO_SCHEMA":"ExternalReference.1","metadata":{},"name":"","available_range":null,"target_url":"u"},"b":{"OTIO_SCHEMA":"MissingReference.1","metadata":{},"name":"","available_range":null},"c":{"OTIO_SCHEMA":"GeneratorReference.1","metadata":{},"name":"","available_range":null,"generator_kind":"bars"},"d":{"OTIO_SCHEMA":"ImageSequenceReference.1","metadata":{},"name":"","available_range":null,"target_url_base":"","name_prefix":"","name_suffix":".exr","frame_step":1}},"active_media_reference_key":"a"}"#,
    },
    Rewritten {
        text: r#"{"OTIO_SCHEMA":"Track.1","kind":"Audio","children":[{"OTIO_SCHEMA":"Transition.1","in_offset":{"OTIO_SCHEMA":"RationalTime.1","rate":23.976023976023978,"value":6}},{"OTIO_SCHEMA":"Gap.1"}]}"#,
        written: r#"{"OTIO_SCHEMA":"Track.1","metadata":{},"name":"","source_range":null,"effects":[],"markers":[],"enabled":true,"children":[{"OTIO_SCHEMA":"Transition.1","metadata":{},"name":"","transition_type":"SMPTE_Dissolve","in_offset":{"OTIO_SCHEMA":"RationalTime.1","rate":23.976023976023978,"value":6.0},"out_offset":null},{"OTIO_SCHEMA":"Gap.1","metadata":{},"name":"","source_range":null,"effects":[],"markers":[],"enabled":true}],"kind":"Audio"}"#,
    },
    Rewritten {
        text: r#"{"OTIO_SCHEMA":"Timeline.1","color":"red","global_start_time":{"OTIO_SCHEMA":"RationalTime.1","rate":24,"value":86400},"tracks":{"OTIO_SCHEMA":"Stack.1","children":[{"OTIO_SCHEMA":"Stack.1"}]}}"#,
        written: r#"{"OTIO_SCHEMA":"Timeline.1","metadata":{},"name":"","global_start_time":{"OTIO_SCHEMA":"RationalTime.1","rate":24.0,"value":86400.0},"tracks":{"OTIO_SCHEMA":"Stack.1","metadata":{},"name":"","source_range":null,"effects":[],"markers":[],"enabled":true,"children":[{"OTIO_SCHEMA":"Stack.1","metadata":{},"name":"","source_range":null,"effects":[],"markers":[],"enabled":true,"children":[]}]},"color":"red"}"#,
    },
    Rewritten {
        text: r#"{"OTIO_SCHEMA":"SerializableCollection.1","children":[{"OTIO_SCHEMA":"Timeline.1"},{"OTIO_SCHEMA":"SerializableCollection.1"}]}"#,
        written: r#"{"OTIO_SCHEMA":"SerializableCollection.1","metadata":{},"name":"","children":[{"OTIO_SCHEMA":"Timeline.1","metadata":{},"name":"","global_start_time":null,"tracks":{"OTIO_SCHEMA":"Stack.1","metadata":{},"name":"tracks","source_range":null,"effects":[],"markers":[],"enabled":true,"children":[]}},{"OTIO_SCHEMA":"SerializableCollection.1","metadata":{},"name":"","children":[]}]}"#,
    },
];

/// A text, and what is written of its object in the older family without blanks and line feeds.
pub struct Older {
    pub text: &'static str,
    pub older: &'static str,
}

/// Markers of all kinds of items, objects in collections, and other members with the names of the
/// other family.
pub static OLDER: [Older; 5] = [
    Older {
        text: r#"{"OTIO_SCHEMA":"Track.1","markers":[{"OTIO_SCHEMA":"Marker.2","name":"t","color":"RED"}],"children":[{"OTIO_SCHEMA":"Gap.1","markers":[{"OTIO_SCHEMA":"Marker.2","name":"g"}]},{"OTIO_SCHEMA":"Transition.1"}]}"#,
        older: r#"{"OTIO_SCHEMA":"Track.1","metadata":{},"name":"","source_range":null,"effects":[],"markers":[{"OTIO_SCHEMA":"Marker.1","metadata":{},"name":"t","range":null,"color":"RED"}],"enabled":true,"children":[{"OTIO_SCHEMA":"Gap.1","metadata":{},"name":"","source_range":null,"effects":[],"markers":[{"OTIO_SCHEMA":"Marker.1","metadata":{},"name":"g","range":null}],"enabled":true},{"OTIO_SCHEMA":"Transition.1","metadata":{},"name":"","transition_type":"SMPTE_Dissolve","in_offset":null,"out_offset":null}],"kind":"Video"}"#,
    },
    Older {
        text: r#"{"OTIO_SCHEMA":"Timeline.1","tracks":{"OTIO_SCHEMA":"Stack.1","markers":[{"OTIO_SCHEMA":"Marker.2","name":"r"}],"children":[{"OTIO_SCHEMA":"Stack.1","markers":[{"OTIO_SCHEMA":"Marker.2","name":"s"}],"children":[{"OTIO_SCHEMA":"Clip.1"}]}]}}"#,
        older: r#"{"OTIO_SCHEMA":"Timeline.1","metadata":{},"name":"","global_start_time":null,"tracks":{"OTIO_SCHEMA":"Stack.1","metadata":{},"name":"","source_range":null,"effects":[],"markers":[{"OTIO_SCHEMA":"Marker.1","metadata":{},"name":"r","range":null}],"enabled":true,"children":[{"OTIO_SCHEMA":"Stack.1","metadata":{},"name":"","source_range":null,"effects":[],"markers":[{"OTIO_SCHEMA":"Marker.1","metadata":{},"name":"s","range":null}],"enabled":true,"children":[{"OTIO_SCHEMA":"Clip.1","metadata":{},"name":"","source_range":null,"effects":[],"markers":[],"enabled":true,"media_reference":{"OTIO_SCHEMA":"MissingReference.1","metadata":{},"name":"","available_range":null}}]}]}}"#,
    },
    Older {
        text: r#"{"OTIO_SCHEMA":"Clip.1","name":"c","markers":[{"OTIO_SCHEMA":"Marker.1","name":"k","range":{"OTIO_SCHEMA":"TimeRange.1","start_time":{"OTIO_SCHEMA":"RationalTime.1","rate":24,"value":1},"duration":{"OTIO_SCHEMA":"RationalTime.1","rate":24,"value":2}}}]}"#,
        older: r#"{"OTIO_SCHEMA":"Clip.1","metadata":{},"name":"c","source_range":null,"effects":[],"markers":[{"OTIO_SCHEMA":"Marker.1","metadata":{},"name":"k","range":{"OTIO_SCHEMA":"TimeRange.1","duration":{"OTIO_SCHEMA":"RationalTime.1","rate":24.0,"value":2.0},"start_time":{"OTIO_SCHEMA":"RationalTime.1","rate":24.0,"value":1.0}}}],"enabled":true,"media_reference":{"OTIO_SCHEMA":"MissingReference.1","metadata":{},"name":"","available_range":null}}"#,
    },
    Older {
        text: r#"{"OTIO_SCHEMA":"SerializableCollection.1","name":"b","children":[{"OTIO_SCHEMA":"Clip.2","media_references":{"DEFAULT_MEDIA":{"OTIO_SCHEMA":"ExternalReference.1","target_url":"u"}}},{"OTIO_SCHEMA":"SerializableCollection.1","children":[{"OTIO_SCHEMA":"Timeline.1","tracks":{"OTIO_SCHEMA":"Stack.1","children":[{"OTIO_SCHEMA":"Clip.1"}]}}]}]}"#,
        older: r#"{"OTIO_SCHEMA":"SerializableCollection.1","metadata":{},"name":"b","children":[{"OTIO_SCHEMA":"Clip.1","metadata":{},"name":"","source_range":null,"effects":[],"markers":[],"enabled":true,"media_reference":{"OTIO_SCHEMA":"ExternalReference.1","metadata":{},"name":"","available_range":null,"target_url":"u"}},{"OTIO_SCHEMA":"SerializableCollection.1","metadata":{},"name":"","children":[{"OTIO_SCHEMA":"Timeline.1","metadata":{},"name":"","global_start_time":null,"tracks":{"OTIO_SCHEMA":"Stack.1","metadata":{},"name":"","source_range":null,"effects":[],"markers":[],"enabled":true,"children":[{"OTIO_SCHEMA":"Clip.1","metadata":{},"name":"","source_range":null,"effects":[],"markers":[],"enabled":true,"media_reference":{"OTIO_SCHEMA":"MissingReference.1","metadata":{},"name":"","available_range":null}}]}}]}]}"#,
    },
    Older {
        text: r#"{"OTIO_SCHEMA":"Clip.2","range":1,"media_references":{"DEFAULT_MEDIA":{"OTIO_SCHEMA":"Foo.7","media_reference":[1.50]}},"color":"red","markers":[{"OTIO_SCHEMA":"Marker.2","media_reference":0},{"OTIO_SCHEMA":"Foo.7","range":1}],"effects":[{"OTIO_SCHEMA":"Effect.1","range":2}],"metadata":{"range":3,"media_reference":4}}"#,
        older: r#"{"OTIO_SCHEMA":"Clip.1","metadata":{"range":3,"media_reference":4},"name":"","source_range":null,"effects":[{"OTIO_SCHEMA":"Effect.1","metadata":{},"name":"","effect_name":"","range":2}],"markers":[{"OTIO_SCHEMA":"Marker.1","metadata":{},"name":"","range":null,"media_reference":0},{"OTIO_SCHEMA":"Foo.7","range":1}],"enabled":true,"media_reference":{"OTIO_SCHEMA":"Foo.7","media_reference":[1.50]},"range":1,"color":"red"}"#,
    },
];

/// An event of two seconds.
pub const ONE: &[u8] =
    b"TITLE: ONE\nFCM: NON-DROP FRAME\n\n7 TAPE1 V C 01:00:00:00 01:00:02:00 00:00:10:00 00:00:12:00\n";

/// The list that is written of it.
pub const ONE_SPELLED: &[u8] =
    b"TITLE: ONE\nFCM: NON-DROP FRAME\n001  TAPE1    V     C        01:00:00:00 01:00:02:00 00:00:10:00 00:00:12:00\n";

/// The timeline that it becomes, where the media of the reel `TAPE1` are `a.mov`, in parts.
pub static ONE_CONFORMED: [&[u8]; 4] = [
    b"{
    \"OTIO_SCHEMA\": \"Timeline.1\",
    \"metadata\": {},
    \"name\": \"ONE\",
    \"global_start_time\": {
        \"OTIO_SCHEMA\": \"RationalTime.1\",
        \"rate\": 24.0,
        \"value\": 240.0
    },
    \"tracks\": {
        \"OTIO_SCHEMA\": \"Stack.1\",
        \"metadata\": {},
        \"name\": \"tracks\",
        \"source_range\": null,
        \"effects\": [],
        \"markers\": [],
        \"enabled\": true,
        \"children\": [
            {
                \"OTIO_SCHEMA\": \"Track.1\",
                \"metadata\": {},
                \"name\": \"V\",
                \"source_range\": null,
                \"effects\": [],
                \"markers\": [],
                \"enabled\": true,
                \"children\": [
                    {
                        \"OTIO_SCHEMA\": \"Clip.2\",
                        \"metadata\": {
",
    b"                            \"cmx_3600\": {
                                \"reel\": \"TAPE1\"
                            }
                        },
                        \"name\": \"TAPE1\",
                        \"source_range\": {
                            \"OTIO_SCHEMA\": \"TimeRange.1\",
                            \"duration\": {
                                \"OTIO_SCHEMA\": \"RationalTime.1\",
                                \"rate\": 24.0,
                                \"value\": 48.0
                            },
                            \"start_time\": {
                                \"OTIO_SCHEMA\": \"RationalTime.1\",
                                \"rate\": 24.0,
                                \"value\": 86400.0
                            }
                        },
                        \"effects\": [],
                        \"markers\": [],
",
    b"                        \"enabled\": true,
                        \"media_references\": {
                            \"DEFAULT_MEDIA\": {
                                \"OTIO_SCHEMA\": \"ExternalReference.1\",
                                \"metadata\": {},
                                \"name\": \"\",
                                \"available_range\": {
                                    \"OTIO_SCHEMA\": \"TimeRange.1\",
                                    \"duration\": {
                                        \"OTIO_SCHEMA\": \"RationalTime.1\",
                                        \"rate\": 24.0,
                                        \"value\": 200000.0
                                    },
                                    \"start_time\": {
                                        \"OTIO_SCHEMA\": \"RationalTime.1\",
",
    b"                                        \"rate\": 24.0,
                                        \"value\": 0.0
                                    }
                                },
                                \"target_url\": \"a.mov\"
                            }
                        },
                        \"active_media_reference_key\": \"DEFAULT_MEDIA\"
                    }
                ],
                \"kind\": \"Video\"
            }
        ]
    }
}
",
];

/// A dissolve with notes, a speed and names after it, in no order.
pub const NOTED: &[u8] = b"1 A V C 01:00:00:00 01:00:00:00 00:00:10:00 00:00:10:00
1 B V D 012 01:00:03:00 01:00:04:00 00:00:10:00 00:00:11:00
* ASC_SAT: 1
M2 B 048.0 01:00:03:00
* LOC: 00:00:10:00 RED x
* FROM CLIP NAME: a
* TO CLIP NAME: b
";

/// The same with lines that end in CR LF.
pub const NOTED_CRLF: &[u8] = b"1 A V C 01:00:00:00 01:00:00:00 00:00:10:00 00:00:10:00\r
1 B V D 012 01:00:03:00 01:00:04:00 00:00:10:00 00:00:11:00\r
* ASC_SAT: 1\r
M2 B 048.0 01:00:03:00\r
* LOC: 00:00:10:00 RED x\r
* FROM CLIP NAME: a\r
* TO CLIP NAME: b\r
";

/// The list that is written of both.
pub const NOTED_SPELLED: &[u8] = b"FCM: NON-DROP FRAME
001  A        V     C        01:00:00:00 01:00:00:00 00:00:10:00 00:00:10:00
001  B        V     D    012 01:00:03:00 01:00:04:00 00:00:10:00 00:00:11:00
M2   B        048.0                01:00:03:00
* FROM CLIP NAME: a
* TO CLIP NAME: b
* ASC_SAT: 1
* LOC: 00:00:10:00 RED     x
";

/// A log of two tapes.
pub const LOG: &[u8] = b"Heading
FIELD_DELIM\tTABS
FPS\t24

Column
Name\tTape\tStart\tEnd

Data
k1\tA1\t00:00:00:00\t00:00:10:00
k2\tB1\t00:00:00:00\t00:00:41:16
k3\tA1\t00:00:20:00\t00:00:41:16
";

/// The same with lines that end in CR LF, and no end of the last one.
pub const LOG_CRLF: &[u8] = b"Heading\r
FIELD_DELIM\tTABS\r
FPS\t24\r
\r
Column\r
Name\tTape\tStart\tEnd\r
\r
Data\r
k1\tA1\t00:00:00:00\t00:00:10:00\r
k2\tB1\t00:00:00:00\t00:00:41:16\r
k3\tA1\t00:00:20:00\t00:00:41:16";

/// The media list that is written of both.
pub const LOG_MEDIA: &[u8] = b"A1\t24.0\t0\t1000\ttape:A1\nB1\t24.0\t0\t1000\ttape:B1\n";

/// A log with blanks and tabs at the ends of its lines, and lines of nothing else.
pub const BLANKS: &[u8] =
    b"\n \t\n\t Heading \t\n \t\nFPS\t 24 \n\t\t\n Column\t\n\t \n Name \t Tape\t Start \t End \n\n\tData \n\t\t\n x \t A1 \t 00:00:01:00 \t 00:00:02:00 \n  \n";

/// A log with rows out of order, and one without an end.
pub const ROWS: &[u8] = b"Heading
FPS\t24
Column
Tape\tStart\tEnd
Data
B\t00:00:00:00\t
A\t00:00:04:00\t00:00:05:00
B\t00:00:02:00\t00:00:03:00
A\t00:00:01:00\t00:00:02:00
B\t00:00:02:12\t00:00:02:13
A\t00:00:03:00\t00:00:09:00
A\t00:00:02:00\t00:00:03:00
";

/// A cut and a dissolve of two reels.
pub const TWO_REELS: &[u8] = b"TITLE: fifteen
FCM: NON-DROP FRAME
001  A1       V     C        00:00:04:04 00:00:05:18 01:00:00:00 01:00:01:14
* FROM CLIP NAME: a
002  A1       V     C        00:00:05:18 00:00:05:18 01:00:01:14 01:00:01:14
002  B1       V     D    024 00:00:07:22 00:00:10:08 01:00:01:14 01:00:04:00
* FROM CLIP NAME: a
* TO CLIP NAME: b
";

/// A timeline of the same, in parts. Its metadata have a numeral that is kept, escapes, and
/// characters of two, three and four bytes.
pub static FILM: [&[u8]; 2] = [
    b"{\"OTIO_SCHEMA\":\"Timeline.1\",\"tracks\":{\"OTIO_SCHEMA\":\"Stack.1\",\"children\":[{\"OTIO_SCHEMA\":\"Track.1\",\"children\":[
{\"OTIO_SCHEMA\":\"Clip.2\",\"name\":\"a\",\"metadata\":{\"cmx_3600\":{\"reel\":\"A1\"}},
\"source_range\":{\"OTIO_SCHEMA\":\"TimeRange.1\",
\"start_time\":{\"OTIO_SCHEMA\":\"RationalTime.1\",\"rate\":24,\"value\":100},
\"duration\":{\"OTIO_SCHEMA\":\"RationalTime.1\",\"rate\":24,\"value\":48}},
\"media_references\":{\"DEFAULT_MEDIA\":{\"OTIO_SCHEMA\":\"ExternalReference.1\",\"target_url\":\"a.mov\"}}},
{\"OTIO_SCHEMA\":\"Transition.1\",\"transition_type\":\"SMPTE_Dissolve\",
\"in_offset\":{\"OTIO_SCHEMA\":\"RationalTime.1\",\"rate\":24,\"value\":10},
\"out_offset\":{\"OTIO_SCHEMA\":\"RationalTime.1\",\"rate\":24,\"value\":14}},
{\"OTIO_SCHEMA\":\"Clip.2\",\"name\":\"b\",\"metadata\":{\"cmx_3600\":{\"reel\":\"B1\"}},
",
    b"\"source_range\":{\"OTIO_SCHEMA\":\"TimeRange.1\",
\"start_time\":{\"OTIO_SCHEMA\":\"RationalTime.1\",\"rate\":24,\"value\":200},
\"duration\":{\"OTIO_SCHEMA\":\"RationalTime.1\",\"rate\":24,\"value\":48}},
\"media_references\":{\"DEFAULT_MEDIA\":{\"OTIO_SCHEMA\":\"ExternalReference.1\",\"target_url\":\"b.mov\"}}}]}]},\"name\":\"fifteen\",
\"metadata\":{\"\\u00e9\":[1.50,null],\"\xc3\xa9\xe2\x82\xac\xf0\x9f\x8e\xac\":\"\\ud83c\\udfac\\n\"},
\"global_start_time\":{\"OTIO_SCHEMA\":\"RationalTime.1\",\"rate\":24,\"value\":86400}}
",
];

/// What is written of it, in parts.
pub static FILM_WRITTEN: [&[u8]; 6] = [
    b"{
    \"OTIO_SCHEMA\": \"Timeline.1\",
    \"metadata\": {
        \"\xc3\xa9\": [
            1.50,
            null
        ],
        \"\xc3\xa9\xe2\x82\xac\xf0\x9f\x8e\xac\": \"\xf0\x9f\x8e\xac\\n\"
    },
    \"name\": \"fifteen\",
    \"global_start_time\": {
        \"OTIO_SCHEMA\": \"RationalTime.1\",
        \"rate\": 24.0,
        \"value\": 86400.0
    },
    \"tracks\": {
        \"OTIO_SCHEMA\": \"Stack.1\",
        \"metadata\": {},
        \"name\": \"\",
        \"source_range\": null,
        \"effects\": [],
        \"markers\": [],
        \"enabled\": true,
        \"children\": [
            {
                \"OTIO_SCHEMA\": \"Track.1\",
                \"metadata\": {},
                \"name\": \"\",
                \"source_range\": null,
                \"effects\": [],
                \"markers\": [],
                \"enabled\": true,
",
    b"                \"children\": [
                    {
                        \"OTIO_SCHEMA\": \"Clip.2\",
                        \"metadata\": {
                            \"cmx_3600\": {
                                \"reel\": \"A1\"
                            }
                        },
                        \"name\": \"a\",
                        \"source_range\": {
                            \"OTIO_SCHEMA\": \"TimeRange.1\",
                            \"duration\": {
                                \"OTIO_SCHEMA\": \"RationalTime.1\",
                                \"rate\": 24.0,
                                \"value\": 48.0
                            },
                            \"start_time\": {
                                \"OTIO_SCHEMA\": \"RationalTime.1\",
                                \"rate\": 24.0,
                                \"value\": 100.0
",
    b"                            }
                        },
                        \"effects\": [],
                        \"markers\": [],
                        \"enabled\": true,
                        \"media_references\": {
                            \"DEFAULT_MEDIA\": {
                                \"OTIO_SCHEMA\": \"ExternalReference.1\",
                                \"metadata\": {},
                                \"name\": \"\",
                                \"available_range\": null,
                                \"target_url\": \"a.mov\"
                            }
                        },
                        \"active_media_reference_key\": \"DEFAULT_MEDIA\"
                    },
                    {
                        \"OTIO_SCHEMA\": \"Transition.1\",
                        \"metadata\": {},
                        \"name\": \"\",
",
    b"                        \"transition_type\": \"SMPTE_Dissolve\",
                        \"in_offset\": {
                            \"OTIO_SCHEMA\": \"RationalTime.1\",
                            \"rate\": 24.0,
                            \"value\": 10.0
                        },
                        \"out_offset\": {
                            \"OTIO_SCHEMA\": \"RationalTime.1\",
                            \"rate\": 24.0,
                            \"value\": 14.0
                        }
                    },
                    {
                        \"OTIO_SCHEMA\": \"Clip.2\",
                        \"metadata\": {
                            \"cmx_3600\": {
                                \"reel\": \"B1\"
                            }
                        },
                        \"name\": \"b\",
                        \"source_range\": {
",
    b"                            \"OTIO_SCHEMA\": \"TimeRange.1\",
                            \"duration\": {
                                \"OTIO_SCHEMA\": \"RationalTime.1\",
                                \"rate\": 24.0,
                                \"value\": 48.0
                            },
                            \"start_time\": {
                                \"OTIO_SCHEMA\": \"RationalTime.1\",
                                \"rate\": 24.0,
                                \"value\": 200.0
                            }
                        },
                        \"effects\": [],
                        \"markers\": [],
                        \"enabled\": true,
                        \"media_references\": {
                            \"DEFAULT_MEDIA\": {
                                \"OTIO_SCHEMA\": \"ExternalReference.1\",
",
    b"                                \"metadata\": {},
                                \"name\": \"\",
                                \"available_range\": null,
                                \"target_url\": \"b.mov\"
                            }
                        },
                        \"active_media_reference_key\": \"DEFAULT_MEDIA\"
                    }
                ],
                \"kind\": \"Video\"
            }
        ]
    }
}
",
];

/// A gap.
pub const GAP: &[u8] =
    b"{\"OTIO_SCHEMA\":\"Gap.1\",\"name\":\"\\u00e9\",\"metadata\":{\"a\":[1.50,null]}}";

/// What is written of it as an object.
pub const GAP_WRITTEN: &[u8] = b"{
    \"OTIO_SCHEMA\": \"Gap.1\",
    \"metadata\": {
        \"a\": [
            1.50,
            null
        ]
    },
    \"name\": \"\xc3\xa9\",
    \"source_range\": null,
    \"effects\": [],
    \"markers\": [],
    \"enabled\": true
}
";

/// What is written of it as JSON.
pub const GAP_INDENTED: &[u8] = b"{
    \"OTIO_SCHEMA\": \"Gap.1\",
    \"name\": \"\xc3\xa9\",
    \"metadata\": {
        \"a\": [
            1.50,
            null
        ]
    }
}
";
